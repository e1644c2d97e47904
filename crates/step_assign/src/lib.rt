// `:=` of an expression that makes no frame and no text, in one go: each operand is read once and the path is walked once, and an end that is met leaves the words as they are.
#![tactic(auto)]

ghost use Rattle.std.specs.Prelude.{◌≡◌, ◌<◌};
ghost use Rattle.framed.specs.Answers.{end_met};
ghost use Rattle.framed.specs.Machine.{defined};
ghost use Rattle.tables.specs.Fields.{instruction_a, instruction_b, instruction_c};
ghost use Rattle.paths.specs.Paths.{fetched};
ghost use Rattle.operators.specs.Operators.{Comparable};
ghost use Rattle.operands.specs.Operands.{operand_value};
ghost use Rattle.commit.specs.Commit.{root_of, set_root, assignment};
ghost use Rattle.commit.specs.Direct.{CanDoEntry, Does};
ghost use Rattle.step_assign.specs.Assign.{given, of_base, of_not, operation_given, expression_given, PutsSlot, Puts, PutsFrom};

use commit::Done;
use framed::{End, Text, Value};
use tables::ExpressionEntry;

// A base; no rule applies where the value is undefined.
fn from_fetched(f: Option<Value>) -> Result<Option<Value>, End>
    ensures { given result ≡ of_base (defined (fetched f)) }
{
    let v = f.ok_or(End::NoRule)?;
    Ok(Some(v))
}

// `!` of a base.
fn negation(p: &[u32], h: &[u32], a: u32) -> Result<Option<Value>, End>
    ensures { given result ≡ of_not (operand_value p.now h.now a) }
{
    let v = operands::operand(p, h, a).ok_or(End::NoRule)?;
    if texts::truth(v) {
        return Ok(Some(Value::Int(0)));
    }
    Ok(Some(Value::Int(1)))
}

// The operator of the kind between two bases; `#` makes a text.
fn operation<'a>(
    p: &[u32],
    l: &'a [u8],
    h: &[u32],
    t: &'a [u8],
    kind: u32,
    a: u32,
    b: u32,
) -> Result<Option<Value>, End>
    requires { Comparable p.now l.now h.now t.now }
    ensures { given result ≡ operation_given p.now l.now h.now t.now kind a b }
{
    if kind == 12 {
        return Ok(None);
    }
    let v = operands::operand_number(p, h, a);
    if v == 5 {
        return Err(End::NoRule);
    }
    let w = operands::operand_number(p, h, b);
    if w == 5 {
        return Err(End::NoRule);
    }
    if kind < 12 {
        let n = operators::arithmetic(kind, operands::value(v), operands::value(w))?;
        return Ok(Some(Value::Int(n)));
    }
    if operators::compare(p, l, h, t, kind, operands::value(v), operands::value(w)) {
        return Ok(Some(Value::Int(1)));
    }
    Ok(Some(Value::Int(0)))
}

// The value of expression x; none where it makes something.
fn expression<'a>(
    p: &[u32],
    l: &'a [u8],
    h: &[u32],
    t: &'a [u8],
    x: u32,
) -> Result<Option<Value>, End>
    requires { Comparable p.now l.now h.now t.now }
    ensures { given result ≡ expression_given p.now l.now h.now t.now x }
{
    let e = tables::expression_at(p, x);
    match e {
        ExpressionEntry::Integer(w) => Ok(Some(Value::Int(ints::int_of(w)))),
        ExpressionEntry::Literal(k) => Ok(Some(Value::Text(Text::Literal(k)))),
        ExpressionEntry::FromSelf(j, n) => {
            from_fetched(paths::fetch(p, h, heap::self_value(h), j, n))
        }
        ExpressionEntry::FromProgram(j, n) => {
            from_fetched(paths::fetch(p, h, heap::program_value(h), j, n))
        }
        ExpressionEntry::Code(k) => Ok(Some(Value::Code(k))),
        ExpressionEntry::Frame(_) => Ok(None),
        ExpressionEntry::Not(a) => negation(p, h, a),
        ExpressionEntry::Operate(o, a, b) => operation(p, l, h, t, o, a, b),
        ExpressionEntry::Bad => Ok(None),
    }
}

// The slot of frame f is set, or added behind the others, unless it would be a 17th.
fn put_slot(h: &mut [u32], f: u32, name: u32, v: Value) -> Result<(), End>
    requires { f < 256 }
    ensures { PutsSlot h.old f name v (end_met result) h.new }
{
    let Some(i) = paths::find_slot(h, f, name) else {
        if heap::slot_count(h, f) < 16 {
            heap::add_slot(h, f, name, v);
            return Ok(());
        }
        if heap::frame_used(h, f) {
            return Err(End::SlotLimit);
        }
        return Ok(());
    };
    heap::set_slot_value(h, f, i, v);
    Ok(())
}

// Put along the n path names from j on.
fn put(p: &[u32], h: &mut [u32], root: Value, j: u32, n: u32, v: Value) -> Result<(), End>
    ensures { Puts p.now h.old root j n v (end_met result) h.new }
{
    let at = puts::put_target(p, h, root, j, n).ok_or(End::NoRule)?;
    if 256 <= at.frame {
        return Err(End::NoRule);
    }
    put_slot(h, at.frame, at.name, v)
}

// Put from self or the program; an empty path sets it.
fn put_from(p: &[u32], h: &mut [u32], own: bool, j: u32, n: u32, v: Value) -> Result<(), End>
    ensures { PutsFrom p.now h.old (set_root own h.old v) (root_of own h.old) j n v (end_met result) h.new }
{
    if n == 0 {
        commit::set_root(h, own, v);
        return Ok(());
    }
    put(p, h, commit::root(h, own), j, n, v)
}

// `:=` along a path from self where `own`, else from the program.
pub fn assign<'a>(
    p: &[u32],
    l: &'a [u8],
    h: &mut [u32],
    t: &'a [u8],
    i: u32,
    own: bool,
) -> Result<Done, End>
    requires { CanDoEntry p.now l.now h.old t.now i (assignment own (instruction_a p.now i) (instruction_b p.now i) (instruction_c p.now i)) }
    ensures { Does p.now l.now h.old t.now i result h.new }
{
    let Some(v) = expression(p, l, h, t, tables::instruction_c(p, i))? else {
        return Ok(Done::Left);
    };
    let j = tables::instruction_a(p, i);
    let n = tables::instruction_b(p, i);
    put_from(p, h, own, j, n, v)?;
    commit::go_on(p, h, i);
    Ok(Done::Made)
}
