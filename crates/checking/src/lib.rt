// Which end of 31 to 35 the rule of an assignment or of a show meets first. It reads only, and looks at the ends in the rule's order.
#![tactic(auto)]

ghost use Rattle.std.specs.Prelude.{◌≡◌};
ghost use Rattle.framed.specs.Answers.{end_met};
ghost use Rattle.bounded.specs.Check.{check};
ghost use Rattle.heap.specs.Words.{self_held, program_held as program_value};
ghost use Rattle.heap.specs.Held.{heap_held};
ghost use Rattle.trees.specs.Held.{instruction_held, program_held};
ghost use Rattle.checking.specs.Checking.{ChecksExpression, ChecksSlots, ChecksInstruction};
ghost use Rattle.checking.specs.Checking.{operation_end, base_in, single_end, expression_end, slots_end, assign_end};

use framed::{End, Value};
use tables::ExpressionEntry;

// The two operands, then the operator.
fn check_operation<'a>(
    p: &[u32],
    l: &'a [u8],
    h: &[u32],
    t: &'a [u8],
    o: u32,
    a: u32,
    b: u32,
) -> Result<(), End>
    ensures { end_met result ≡ operation_end p.now l.now h.now t.now o a b }
{
    let v = operands::operand(p, h, a).ok_or(End::NoRule)?;
    let w = operands::operand(p, h, b).ok_or(End::NoRule)?;
    operators::operate_end(p, l, h, t, o, v, w)
}

// The base of expression x: the operand of `!`, or x itself.
fn base_in(x: u32, e: ExpressionEntry) -> u32
    ensures { result ≡ base_in x e }
{
    let ExpressionEntry::Not(a) = e else {
        return x;
    };
    a
}

// An expression that is no frame literal.
fn check_single<'a>(
    p: &[u32],
    l: &'a [u8],
    h: &[u32],
    t: &'a [u8],
    x: u32,
    e: ExpressionEntry,
) -> Result<(), End>
    ensures { end_met result ≡ single_end p.now l.now h.now t.now x e }
{
    let ExpressionEntry::Operate(o, a, b) = e else {
        return operand_checks::check_operand(p, h, base_in(x, e));
    };
    check_operation(p, l, h, t, o, a, b)
}

#[cycle(check)]
fn check_expression<'a>(p: &[u32], l: &'a [u8], h: &[u32], t: &'a [u8], x: u32) -> Result<(), End>
    requires { ChecksExpression p.now l.now h.now t.now x }
    ensures { end_met result ≡ expression_end p.now l.now h.now t.now x }
{
    let e = tables::expression_at(p, x);
    let ExpressionEntry::Frame(d) = e else {
        return check_single(p, l, h, t, x, e);
    };
    check_slots(p, l, h, t, tables::link(1024, x, d))
}

// The slots from a place on, in order; a base (kinds 0 to 4) is looked at here.
#[cycle(check)]
fn check_slots<'a>(p: &[u32], l: &'a [u8], h: &[u32], t: &'a [u8], from: u32) -> Result<(), End>
    requires { ChecksSlots p.now l.now h.now t.now from }
    ensures { end_met result ≡ slots_end p.now l.now h.now t.now from }
{
    let mut z = from;
    while z != 0 {
        let y = z - 1;
        if tables::expression_kind(p, y) < 5 {
            operand_checks::check_operand(p, h, y)?;
            z = tables::slot_after(p, y);
            continue;
        }
        check_expression(p, l, h, t, y)?;
        z = tables::slot_after(p, y);
    }
    Ok(())
}

// The expression, then the path from root.
fn check_assign<'a>(
    p: &[u32],
    l: &'a [u8],
    h: &[u32],
    t: &'a [u8],
    root: Value,
    j: u32,
    n: u32,
    x: u32,
) -> Result<(), End>
    requires { ChecksExpression p.now l.now h.now t.now x }
    ensures { end_met result ≡ assign_end p.now l.now h.now t.now root j n x }
{
    check_expression(p, l, h, t, x)?;
    operand_checks::check_put(p, h, root, j, n)
}

// Instruction i, which assigns or shows: kinds 0 and 1 assign from self and from the program.
pub fn check<'a>(p: &[u32], l: &'a [u8], h: &[u32], t: &'a [u8], i: u32) -> Result<(), End>
    requires { ChecksInstruction p.now l.now h.now t.now i }
    ensures { end_met result ≡ check (program_held p.now l.now) (self_held h.now) (program_value h.now) (heap_held h.now t.now) (instruction_held p.now i) }
{
    let kind = tables::instruction_kind(p, i);
    let a = tables::instruction_a(p, i);
    if 2 <= kind {
        return operand_checks::check_operand(p, h, a);
    }
    let n = tables::instruction_b(p, i);
    let x = tables::instruction_c(p, i);
    if kind == 0 {
        return check_assign(p, l, h, t, heap::self_value(h), a, n, x);
    }
    check_assign(p, l, h, t, heap::program_value(h), a, n, x)
}
