// The parts of one step over the words: reserve, check, the line of a show, commit. The step itself is the crate `step`.
#![tactic(auto)]

ghost use Rattle.framed.specs.Answers.{end_met};
ghost use Rattle.step_parts.specs.Step.{CanReserve, RoomFor, CanShow, Shows, CanAttempt, Attempts};
ghost use Rattle.step_parts.specs.Step.{frames_for, texts_for};
ghost use Rattle.allocation.specs.Known.{Knows};
ghost use Rattle.reserving.specs.Reserving.{Reserves, Reckons};
ghost use Rattle.checking.specs.Checking.{AssignsOrShows};

use allocation::Known;
use reserving::Reserved;
use tables::InstructionEntry;

// What became of the line of an instruction: its size, where there was space for it.
#[derive(Clone, Copy)]
pub enum Shown {
    Written(usize),
    TooLong,
}

// What became of a step: an end, no space for its line, or made, with the size of its line.
#[derive(Clone, Copy)]
pub enum Outcome {
    Ended(u32),
    NoSpace,
    Made(usize),
}

// What became of a step, and what is known of the numbers in use after it.
#[derive(Clone, Copy)]
pub struct Tried {
    pub outcome: Outcome,
    pub known: Known,
}

// Room for what instruction i makes: the end 36 or 37, or none. One that makes nothing counts nothing.
pub fn reserve_for(p: &[u32], h: &mut [u32], i: u32, k: Known) -> Reserved
    requires can_reserve { CanReserve p.now h.old i }
    requires knows_2 { Knows h.old 0 0 k }
    ensures exact { Reserves p.now h.old (frames_for p.now i) (texts_for p.now i) (end_met result.end) h.new }
    ensures knows { Reckons h.new (frames_for p.now i) (texts_for p.now i) result }
{
    let n = needs::needed(p, i);
    if n == 0 {
        return Reserved {
            end: Ok(()),
            known: k,
        };
    }
    reserving::reserve(p, h, needs::frames(n), needs::texts(n), k)
}

// The line of instruction i at a position of the buffer, where it fits behind it. Only a show has one.
fn show<'a>(
    p: &[u32],
    l: &'a [u8],
    h: &[u32],
    t: &'a [u8],
    i: u32,
    out: &mut [u8],
    used: usize,
) -> Shown
    requires { CanShow p.now l.now h.now t.now i out.old used }
    ensures { Shows p.now l.now h.now t.now i out.old used result out.new }
{
    let InstructionEntry::Show(a) = tables::instruction_at(p, i) else {
        return Shown::Written(0);
    };
    let v = producing::given(p, h, a);
    let size = line::write_line(out, used, p, l, h, t, v);
    if size == 0 {
        return Shown::TooLong;
    }
    Shown::Written(size)
}

// The step on instruction i, which assigns or shows, after reserve, part by part: the end that it meets is marked; without space for its line nothing is done; else the line is written and the instruction committed.
pub fn in_parts(
    p: &[u32],
    l: &[u8],
    h: &mut [u32],
    t: &mut [u8],
    i: u32,
    out: &mut [u8],
    used: usize,
    k: Known,
) -> Tried
    requires can_attempt { CanAttempt p.now l.now h.old t.old i out.old used }
    requires assigns_or_shows { AssignsOrShows p.now i }
    requires room_for { RoomFor p.now h.old i k }
    ensures exact { Attempts p.now l.now h.old t.old i out.old used result.outcome h.new t.new out.new }
    ensures knows { Knows h.new 0 0 result.known }
{
    if let Err(end) = checking::check(p, l, h, t, i) {
        let e = answers::end_number(end);
        heap::set_end_mark(h, e);
        return Tried {
            outcome: Outcome::Ended(e),
            known: k,
        };
    }
    let Shown::Written(n) = show(p, l, h, t, i, out, used) else {
        return Tried {
            outcome: Outcome::NoSpace,
            known: k,
        };
    };
    commit::commit(p, l, h, t, i, k.low, k.least);
    Tried {
        outcome: Outcome::Made(n),
        known: k,
    }
}
