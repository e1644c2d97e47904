// The number that the next new frame and the next new made text take: the lowest that is not in use. How many are in use, the crate heap counts.
#![tactic(auto)]

ghost use Rattle.std.specs.Prelude.{◌≡◌};
ghost use Rattle.allocation.specs.Allocation.{next_frame, next_text};
ghost use Rattle.allocation.specs.Known.{FullBelow, TextsFull};

// What is known of the numbers in use: at most so many frames and made texts are, every frame below `low` is, and every made text below `least`.
#[derive(Clone, Copy)]
pub struct Known {
    pub frames: u32,
    pub low: u32,
    pub texts: u32,
    pub least: u32,
}

// The lowest frame number not in use, 256 where all are; those below `low` are.
pub fn lowest_frame(h: &[u32], low: u32) -> u32
    requires { FullBelow h.now low }
    ensures { result ≡ next_frame h.now }
{
    (low..256).find(|f| !heap::frame_used(h, *f)).unwrap_or(256)
}

// The lowest made text number not in use, 256 where all are; those below `low` are.
pub fn lowest_text(h: &[u32], low: u32) -> u32
    requires { TextsFull h.now low }
    ensures { result ≡ next_text h.now }
{
    (low..256).find(|k| !heap::text_used(h, *k)).unwrap_or(256)
}
