// Numbers 1 to 3: lengths, F and T. Numbers 7, 9, 10 and 12: what stands outside code, and the counts against their limits. Each of these is given the sums over the source's tokens, and 9 the number of its names.
#![tactic(auto)]

ghost use Rattle.std.specs.Prelude.{◌≡◌};
ghost use Rattle.framed.specs.Answers.{load_refused};
ghost use Rattle.sweep.specs.Decides.{Decides};
ghost use Rattle.sums.specs.Totals.{Totalled};
ghost use Rattle.limits.specs.Limits.{CountsNames, misplaced_tree, path_names_tree, limit_tree, far_tree, frames_tree};
ghost use Rattle.limits.specs.Arguments.{lengths, lengths_refusal, limits_refusal};

use framed::LoadRefusal;
use sums::Totals;

// Number 1 where a memory has another length.
#[tactic(auto, unfolding(crate::specs::Arguments::lengths_refusal, framed::specs::Meaning::right_lengths))]
pub fn lengths_refusal(
    program: usize,
    heap: usize,
    literal: usize,
    text: usize,
) -> Result<(), LoadRefusal>
    ensures { load_refused result ≡ lengths_refusal (lengths program heap literal text) }
{
    if program != 16384 || heap != 16384 || literal != 8192 || text != 16384 {
        return Err(LoadRefusal::MemoryLength);
    }
    Ok(())
}

// Number 2 where F or T is outside its range, 3 where the source is too long.
#[tactic(auto, unfolding(crate::specs::Arguments::limits_refusal))]
pub fn limits_refusal(length: usize, f: u32, t: u32) -> Result<(), LoadRefusal>
    ensures { load_refused result ≡ limits_refusal length f t }
{
    if f < 3 || 256 < f || 256 < t {
        return Err(LoadRefusal::LimitRange);
    }
    if 16384 < length {
        return Err(LoadRefusal::SourceLength);
    }
    Ok(())
}

// A path, an operator or `!` is outside code (number 7).
#[tactic(auto, using(crate::proofs::Laws::misplaced_is))]
pub fn outside_code(s: &[u8], t: Totals) -> bool
    requires { Totalled s.now t }
    ensures { Decides misplaced_tree s.now result }
{
    0 < t.misplaced
}

// The names in resolved paths are more than 2,048.
#[tactic(auto, using(crate::proofs::Laws::names_are))]
fn many_path_names(s: &[u8], t: Totals) -> bool
    requires { Totalled s.now t }
    ensures { Decides path_names_tree s.now result }
{
    2048 < t.names.saturating_sub(t.named)
}

// A count is above its limit (number 9). Joined by `||` the proof is longer than the limits: it splits each at the end of the function.
pub fn above_limit(s: &[u8], t: Totals, names: u32) -> bool
    requires totalled { Totalled s.now t }
    requires counted { CountsNames s.now names }
    ensures { Decides limit_tree s.now result }
{
    if 128 < names {
        return true;
    }
    if 512 < t.instructions {
        return true;
    }
    if 128 < t.strings {
        return true;
    }
    if 128 < t.codes {
        return true;
    }
    if 1024 < t.expressions {
        return true;
    }
    many_path_names(s, t)
}

// A `^` is above the program frame (number 10).
#[tactic(auto, using(crate::proofs::Laws::far_is))]
pub fn far_up(s: &[u8], t: Totals) -> bool
    requires { Totalled s.now t }
    ensures { Decides far_tree s.now result }
{
    0 < t.far
}

// F or more frames are written outside code (number 12).
#[tactic(auto, using(crate::proofs::Laws::frames_is))]
pub fn many_frames(s: &[u8], t: Totals, f: u32) -> bool
    requires { Totalled s.now t }
    ensures { Decides (frames_tree f) s.now result }
{
    f as usize <= t.frames
}
