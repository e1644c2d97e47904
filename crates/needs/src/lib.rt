// f and t of an instruction: the frame literals and the `#` signs of its expression, those inside code left out. Counted up to 257: F and T are at most 256.
// One walk counts both, in one number: f + 512 t.
#![tactic(auto)]

ghost use Rattle.std.specs.Prelude.{◌≡◌, ◌+◌, ◌%◌, ◌/◌};
ghost use Rattle.framed.specs.Machine.{frame_literals, frame_literals_in, join_signs, join_signs_in, right_side};
ghost use Rattle.trees.specs.Held.{expression_held, slots_held, instruction_held};
ghost use Rattle.places.specs.Places.{AtExpression, AtSlots, AtInstruction};
ghost use Rattle.needs.specs.Needs.{cap, both, summed, join_sign, RightSide};

use tables::{ExpressionEntry, InstructionEntry};

// a + b, counted up to 257
fn capped(a: u32, b: u32) -> u32
    ensures { result ≡ cap (a + b) }
{
    a.saturating_add(b).min(257)
}

// f of the one number that both are
pub fn frames(n: u32) -> u32
    ensures { result ≡ n % 512 }
{
    n % 512
}

// t of the one number that both are
pub fn texts(n: u32) -> u32
    ensures { result ≡ n / 512 }
{
    n / 512
}

// the sum of two such numbers, f and t apart
fn plus(a: u32, b: u32) -> u32
    ensures { result ≡ summed a b }
{
    let f = capped(frames(a), frames(b));
    let t = capped(texts(a), texts(b));
    f + 512 * t
}

// 1 for an expression with `#`
fn join_sign(e: ExpressionEntry) -> u32
    ensures { result ≡ join_sign e }
{
    let ExpressionEntry::Operate(o, _, _) = e else {
        return 0;
    };
    if o == 12 {
        return 1;
    }
    0
}

// f and t of expression x
#[cycle(made)]
fn made_of(p: &[u32], x: u32) -> u32
    requires { AtExpression p.now x }
    ensures { result ≡ both (frame_literals (expression_held p.now x)) (join_signs (expression_held p.now x)) }
{
    let e = tables::expression_at(p, x);
    let ExpressionEntry::Frame(d) = e else {
        return 512 * join_sign(e);
    };
    plus(1, made_in(p, tables::link(1024, x, d)))
}

// f and t of the slots from a place on; a base (kinds 0 to 4) has none
#[cycle(made)]
fn made_in(p: &[u32], from: u32) -> u32
    requires { AtSlots p.now from }
    ensures { result ≡ both (frame_literals_in (slots_held p.now from)) (join_signs_in (slots_held p.now from)) }
{
    let mut n = 0u32;
    let mut z = from;
    while z != 0 {
        let y = z - 1;
        if 4 < tables::expression_kind(p, y) {
            n = plus(n, made_of(p, y));
        }
        z = tables::slot_after(p, y);
    }
    n
}

// the expression of instruction i: its right side, or its first operand
fn right_side(p: &[u32], i: u32) -> u32
    requires { AtInstruction p.now i }
    ensures { RightSide p.now i result }
{
    match tables::instruction_at(p, i) {
        InstructionEntry::AssignSelf(_, _, x) => x,
        InstructionEntry::AssignProgram(_, _, x) => x,
        InstructionEntry::Show(x) => x,
        InstructionEntry::Jump(x, _) => x,
        InstructionEntry::Ifeq(x, _, _) => x,
        InstructionEntry::Bad => 0,
    }
}

// f and t of instruction i
pub fn needed(p: &[u32], i: u32) -> u32
    requires { AtInstruction p.now i }
    ensures { result ≡ both (frame_literals (right_side (instruction_held p.now i))) (join_signs (right_side (instruction_held p.now i))) }
{
    made_of(p, right_side(p, i))
}
