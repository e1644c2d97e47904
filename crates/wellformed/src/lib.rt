// Whether the four memories are well-formed (document 01: whole). For slices of any lengths, with no `requires`.
#![tactic(auto)]

ghost use Rattle.std.specs.Prelude.{◌≡◌};
ghost use Rattle.wellformed.specs.WellFormed.{limits, well_formed};

use frame_form::Limits;

// What a state keeps within, from the program words.
#[tactic(auto, unfolding(crate::specs::WellFormed::limits))]
fn limits(p: &[u32]) -> Limits
    ensures { result ≡ limits p.now }
{
    Limits {
        frames: tables::frame_limit(p),
        texts: tables::text_limit(p),
        names: tables::names(p),
        literals: tables::literals(p),
        codes: tables::codes(p),
        instructions: tables::instructions(p),
    }
}

#[tactic(auto, unfolding(crate::specs::WellFormed::well_formed))]
pub fn well_formed(p: &[u32], h: &[u32], l: &[u8], t: &[u8]) -> bool
    ensures { result ≡ well_formed p.now h.now l.now t.now }
{
    program_form::program_well_formed(p, l) && state_form::state_well_formed(h, t, limits(p))
}
