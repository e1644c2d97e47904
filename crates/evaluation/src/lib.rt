// The value of an expression, which makes its frames and texts: the last part of a step, after reserve and check.
#![tactic(auto)]

ghost use Rattle.allocation.specs.Known.{FullBelow, TextsFull, Full};
ghost use Rattle.evaluation.specs.Evaluation.{Claims, CanEvaluate, Flat, Evaluates, CanFill, Fills, FillsBases};

use framed::Value;
use tables::ExpressionEntry;

// The lowest frame not in use is taken, without slots, made by the instruction at the position; those below `low` are in use.
pub fn claim(h: &mut [u32], low: u32) -> u32
    requires { FullBelow h.old low }
    ensures { Claims h.old result h.new }
{
    let f = allocation::lowest_frame(h, low);
    heap::take_frame(h, f, heap::position(h));
    f
}

// The value of an expression that is no frame literal; the made texts below `low` are in use.
fn flat(p: &[u32], l: &[u8], h: &mut [u32], t: &mut [u8], x: u32, low: u32) -> Value
    requires flat { Flat p.now l.now h.old t.old x }
    requires texts_full { TextsFull h.old low }
    ensures { Evaluates p.now l.now h.old t.old x result h.new t.new }
{
    let ExpressionEntry::Operate(kind, a, b) = tables::expression_at(p, x) else {
        return producing::read(p, h, x);
    };
    producing::operation(p, l, h, t, kind, a, b, low)
}

// The value of an expression. A frame literal claims its frame first, then its slots are filled in.
#[cycle(evaluate)]
fn evaluate(p: &[u32], l: &[u8], h: &mut [u32], t: &mut [u8], x: u32, low: u32, least: u32) -> Value
    requires can_evaluate { CanEvaluate p.now l.now h.old t.old x }
    requires full { Full h.old low least }
    ensures { Evaluates p.now l.now h.old t.old x result h.new t.new }
{
    let ExpressionEntry::Frame(d) = tables::expression_at(p, x) else {
        return flat(p, l, h, t, x, least);
    };
    let f = claim(h, low);
    fill(p, l, h, t, f, tables::link(1024, x, d), low, least);
    Value::Frame(f)
}

// The slots from a place on: each is evaluated, then pushed on frame f; a base (kinds 0 to 4) is read here.
#[cycle(evaluate)]
pub fn fill(
    p: &[u32],
    l: &[u8],
    h: &mut [u32],
    t: &mut [u8],
    f: u32,
    from: u32,
    low: u32,
    least: u32,
)
    requires can_fill { CanFill p.now l.now h.old t.old f from }
    requires full { Full h.old low least }
    ensures { Fills p.now l.now h.old t.old f from h.new t.new }
{
    let mut z = from;
    while z != 0 {
        let y = z - 1;
        if tables::expression_kind(p, y) < 5 {
            let u = producing::given(p, h, y);
            heap::add_slot(h, f, tables::slot_name(p, y), u);
            z = tables::slot_after(p, y);
            continue;
        }
        let v = evaluate(p, l, h, t, y, low, least);
        heap::add_slot(h, f, tables::slot_name(p, y), v);
        z = tables::slot_after(p, y);
    }
}

// The bases (kinds 0 to 4) from a place on, pushed on frame f, up to a slot that is no base: its place, 0 where none is left.
fn fill_bases(p: &[u32], h: &mut [u32], f: u32, from: u32) -> u32
    ensures { FillsBases p.now f h.old from result h.new }
{
    let mut z = from;
    while z != 0 {
        let y = z - 1;
        if 5 <= tables::expression_kind(p, y) {
            return z;
        }
        let u = producing::given(p, h, y);
        heap::add_slot(h, f, tables::slot_name(p, y), u);
        z = tables::slot_after(p, y);
    }
    0
}

// The same as `evaluate`; of a frame literal (kind 5) the bases that come first are pushed by a loop of their own.
pub fn make(p: &[u32], l: &[u8], h: &mut [u32], t: &mut [u8], x: u32, low: u32, least: u32) -> Value
    requires can_evaluate { CanEvaluate p.now l.now h.old t.old x }
    requires full { Full h.old low least }
    ensures { Evaluates p.now l.now h.old t.old x result h.new t.new }
{
    if tables::expression_kind(p, x) != 5 {
        return evaluate(p, l, h, t, x, low, least);
    }
    let f = claim(h, low);
    let z = fill_bases(p, h, f, tables::link(1024, x, tables::expression_a(p, x)));
    if z == 0 {
        return Value::Frame(f);
    }
    fill(p, l, h, t, f, z, low, least);
    Value::Frame(f)
}
