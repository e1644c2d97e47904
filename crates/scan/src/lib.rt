// Nesting: how deep brackets are open, and number 5.
#![tactic(auto)]

ghost use Rattle.std.specs.Prelude.{◌≡◌};
ghost use Rattle.framed.specs.Answers.{load_refused};
ghost use Rattle.scan.specs.Scan.{depth_after, last_refusal, NotHuge};

use framed::LoadRefusal;

// How many are open after a token of kind k.
#[tactic(auto, unfolding(crate::specs::Scan::depth_after))]
pub fn depth_after(n: usize, k: u32) -> usize
    requires { NotHuge n }
    ensures { result ≡ depth_after n k }
{
    match k {
        12 | 14 => n + 1,
        13 | 15 => n.saturating_sub(1),
        _ => n,
    }
}

// Number 5 where the nesting was above 16.
#[tactic(auto, unfolding(crate::specs::Scan::last_refusal))]
pub fn verdict(high: usize, depth: usize) -> Result<(), LoadRefusal>
    ensures { load_refused result ≡ last_refusal high depth }
{
    if high.max(depth) <= 16 {
        Ok(())
    } else {
        Err(LoadRefusal::Nesting)
    }
}
