// The end that an operand meets, and that Put meets along its path. It reads only.
#![tactic(auto)]

ghost use Rattle.std.specs.Prelude.{◌≡◌};
ghost use Rattle.framed.specs.Answers.{end_met};
ghost use Rattle.bounded.specs.Check.{end_of};
ghost use Rattle.operands.specs.Operands.{operand_value};
ghost use Rattle.operand_checks.specs.OperandChecks.{put_end};

use framed::{End, Value};

// No rule applies where the operand is undefined.
pub fn check_operand(p: &[u32], h: &[u32], x: u32) -> Result<(), End>
    ensures { end_met result ≡ end_of (operand_value p.now h.now x) }
{
    if operands::operand_number(p, h, x) == 5 {
        return Err(End::NoRule);
    }
    Ok(())
}

// Put along the n path names from j on; an empty path has no end.
pub fn check_put(p: &[u32], h: &[u32], root: Value, j: u32, n: u32) -> Result<(), End>
    ensures { end_met result ≡ put_end p.now h.now root j n }
{
    if n == 0 {
        return Ok(());
    }
    puts::put_end(p, h, root, j, n)
}
