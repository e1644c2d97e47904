// Whether heap words and text bytes are well-formed (document 01: whole), the half of that paragraph which is about them. No function here has a `requires`.
// Values and frames are tested in `frame_form`, made texts in `text_form`.
#![tactic(auto)]

ghost use Rattle.std.specs.Prelude.{◌≡◌};
ghost use Rattle.state_form.specs.Tests.{roots_formed, counts_formed, position_formed, end_formed, parts_formed, state_well_formed};

use frame_form::Limits;

#[tactic(auto, unfolding(crate::specs::Tests::roots_formed))]
fn roots_formed(h: &[u32], limits: Limits) -> bool
    ensures { result ≡ roots_formed h.now limits }
{
    frame_form::value_formed(h, limits, words::word(h, 0), words::word(h, 1))
        && frame_form::value_formed(h, limits, words::word(h, 2), words::word(h, 3))
}

#[tactic(auto, unfolding(crate::specs::Tests::counts_formed))]
fn counts_formed(h: &[u32], limits: Limits) -> bool
    ensures { result ≡ counts_formed h.now limits }
{
    heap::count_frames(h) <= limits.frames && heap::count_texts(h) <= limits.texts
}

#[tactic(auto, unfolding(crate::specs::Tests::position_formed))]
fn position_formed(h: &[u32], limits: Limits) -> bool
    ensures { result ≡ position_formed h.now limits }
{
    heap::position(h) <= limits.instructions
}

#[tactic(auto, unfolding(crate::specs::Tests::end_formed))]
fn end_formed(h: &[u32]) -> bool
    ensures { result ≡ end_formed h.now }
{
    let e = heap::end_mark(h);
    e == 0 || (31..=37).contains(&e)
}

#[tactic(auto, unfolding(crate::specs::Tests::parts_formed))]
fn parts_formed(h: &[u32], t: &[u8], limits: Limits) -> bool
    ensures { result ≡ parts_formed h.now t.now limits }
{
    roots_formed(h, limits)
        && frame_form::frames_formed(h, limits)
        && text_form::texts_formed(h, t)
        && counts_formed(h, limits)
        && position_formed(h, limits)
        && end_formed(h)
}

// Are heap words and text bytes well-formed, for a program with these numbers? Of any numbers and lengths.
#[tactic(auto, unfolding(crate::specs::Tests::state_well_formed))]
pub fn state_well_formed(h: &[u32], t: &[u8], limits: Limits) -> bool
    ensures { result ≡ state_well_formed h.now t.now limits }
{
    h.len() == 16384 && t.len() == 16384 && parts_formed(h, t, limits)
}
