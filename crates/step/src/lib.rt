// One step of the machine over the words: in one go, or reserve and then its parts. The parts are the crates below; here they follow one another.
#![tactic(auto)]

ghost use Rattle.std.specs.Prelude.{◌≡◌, true};
ghost use Rattle.step_parts.specs.Step.{RoomFor, CanStep, CanAttempt, Attempts, AttemptsQuietly};
ghost use Rattle.allocation.specs.Known.{Knows};
ghost use Rattle.commit.specs.Direct.{CanDo, MakesOrShows, Does};
ghost use Rattle.step_join.specs.Join.{joins_entry};

use allocation::Known;
use commit::Done;
use framed::End;
use step_parts::{Outcome, Tried};
use tables::InstructionEntry;

// Instruction i, where it makes nothing and shows nothing, in one go. Else it is left.
fn direct<'a>(p: &[u32], l: &'a [u8], h: &mut [u32], t: &'a [u8], i: u32) -> Result<Done, End>
    requires { CanDo p.now l.now h.old t.now i }
    ensures { Does p.now l.now h.old t.now i result h.new }
{
    let kind = tables::instruction_kind(p, i);
    if kind < 2 {
        return step_assign::assign(p, l, h, t, i, kind == 0);
    }
    match tables::instruction_at(p, i) {
        InstructionEntry::AssignSelf(_, _, _) => Ok(Done::Left),
        InstructionEntry::AssignProgram(_, _, _) => Ok(Done::Left),
        InstructionEntry::Show(_) => Ok(Done::Left),
        InstructionEntry::Jump(a, c) => {
            step_jump::jump(p, l, h, a, c)?;
            Ok(Done::Made)
        }
        InstructionEntry::Ifeq(a, c, d) => step_jump::branch(p, l, h, t, i, a, c, d),
        InstructionEntry::Bad => Ok(Done::Left),
    }
}

// The step on an instruction that assigns a join, after reserve, in one go. The end that it meets is marked; it has no line.
fn joined(p: &[u32], l: &[u8], h: &mut [u32], t: &mut [u8], i: u32, k: Known) -> Tried
    requires can_step { CanStep p.now l.now h.old t.old i }
    requires i_value { joins_entry p.now i ≡ true }
    requires room_for { RoomFor p.now h.old i k }
    ensures exact { AttemptsQuietly p.now l.now h.old t.old i result.outcome h.new t.new }
    ensures knows { Knows h.new 0 0 result.known }
{
    if let Err(end) = step_join::assign_join(p, l, h, t, i, k.least) {
        let met = answers::end_number(end);
        heap::set_end_mark(h, met);
        return Tried {
            outcome: Outcome::Ended(met),
            known: k,
        };
    }
    Tried {
        outcome: Outcome::Made(0),
        known: k,
    }
}

// The step on an instruction that makes or shows something: reserve, then the rest. The end that reserve gives is marked.
fn reserved(
    p: &[u32],
    l: &[u8],
    h: &mut [u32],
    t: &mut [u8],
    i: u32,
    out: &mut [u8],
    used: usize,
    k: Known,
) -> Tried
    requires can_attempt { CanAttempt p.now l.now h.old t.old i out.old used }
    requires makes_or_shows { MakesOrShows p.now i }
    requires knows_2 { Knows h.old 0 0 k }
    ensures exact { Attempts p.now l.now h.old t.old i out.old used result.outcome h.new t.new out.new }
    ensures knows { Knows h.new 0 0 result.known }
{
    let s = step_parts::reserve_for(p, h, i, k);
    let known = s.known;
    if let Err(e) = s.end {
        let full = answers::end_number(e);
        heap::set_end_mark(h, full);
        return Tried {
            outcome: Outcome::Ended(full),
            known,
        };
    }
    if step_join::joins(p, i) {
        return joined(p, l, h, t, i, known);
    }
    step_parts::in_parts(p, l, h, t, i, out, used, known)
}

// The step on instruction i: the end that it gives is marked; without space for its line nothing is done; else the line is written and the instruction committed. One that makes nothing and shows nothing is done in one go, and so is one that assigns a join, after reserve.
pub fn attempt(
    p: &[u32],
    l: &[u8],
    h: &mut [u32],
    t: &mut [u8],
    i: u32,
    out: &mut [u8],
    used: usize,
    k: Known,
) -> Tried
    requires can_attempt { CanAttempt p.now l.now h.old t.old i out.old used }
    requires knows_2 { Knows h.old 0 0 k }
    ensures exact { Attempts p.now l.now h.old t.old i out.old used result.outcome h.new t.new out.new }
    ensures knows { Knows h.new 0 0 result.known }
{
    match direct(p, l, h, t, i) {
        Ok(Done::Made) => Tried {
            outcome: Outcome::Made(0),
            known: k,
        },
        Ok(Done::Left) => reserved(p, l, h, t, i, out, used, k),
        Err(end) => {
            let met = answers::end_number(end);
            heap::set_end_mark(h, met);
            Tried {
                outcome: Outcome::Ended(met),
                known: k,
            }
        }
    }
}
