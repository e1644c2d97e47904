// A jump and an `ifeq`, in one go: each operand is read once, and an end that is met leaves the words as they are.
#![tactic(auto)]

ghost use Rattle.framed.specs.Answers.{end_met};
ghost use Rattle.tables.specs.declared.InstructionEntry.{InstructionEntry};
ghost use Rattle.commit.specs.Commit.{CanJump};
ghost use Rattle.commit.specs.Direct.{CanDoEntry, Does};
ghost use Rattle.step_jump.specs.Jump.{JumpsOnce};

use commit::Done;
use framed::{End, Value};

// The first operand must be code, the second have a value: then the code replaces the rest, and self becomes the second.
pub fn jump(p: &[u32], l: &[u8], h: &mut [u32], a: u32, c: u32) -> Result<(), End>
    requires { CanJump p.now l.now h.old a c }
    ensures { JumpsOnce p.now l.now h.old a c (end_met result) h.new }
{
    let Value::Code(k) = operands::operand(p, h, a).ok_or(End::NoRule)? else {
        return Err(End::NoRule);
    };
    let w = operands::operand(p, h, c).ok_or(End::NoRule)?;
    heap::set_self(h, w);
    heap::set_position(h, places::first_place(p, k));
    Ok(())
}

// Integer 0 jumps; any other value goes on.
pub fn branch(
    p: &[u32],
    l: &[u8],
    h: &mut [u32],
    t: &[u8],
    i: u32,
    a: u32,
    c: u32,
    d: u32,
) -> Result<Done, End>
    requires { CanDoEntry p.now l.now h.old t.now i (InstructionEntry.Ifeq a c d) }
    ensures { Does p.now l.now h.old t.now i result h.new }
{
    let test = operands::operand(p, h, a).ok_or(End::NoRule)?;
    if texts::truth(test) {
        commit::go_on(p, h, i);
        return Ok(Done::Made);
    }
    jump(p, l, h, c, d)?;
    Ok(Done::Made)
}
