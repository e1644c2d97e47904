// The values of expressions that make no frame: bases, `!` and the operators; `#` makes a text. Where check has met an end, the value is integer 0.
#![tactic(auto)]

ghost use Rattle.std.specs.Prelude.{◌≡◌, ◌≤◌, length};
ghost use Rattle.allocation.specs.Known.{TextsFull};
ghost use Rattle.bounded.specs.Bounded.{value_given};
ghost use Rattle.operands.specs.Operands.{operand_value};
ghost use Rattle.producing.specs.Producing.{read_value, MakesText, CanJoin, Joins, CanProduce, Produces, Operates};

use framed::{Text, Value};
use operators::Operated;
use tables::ExpressionEntry;

// The value of an expression read as a base.
pub fn given(p: &[u32], h: &[u32], x: u32) -> Value
    ensures { result ≡ value_given (operand_value p.now h.now x) }
{
    operands::operand(p, h, x).unwrap_or(Value::Int(0))
}

// The value of an expression that makes nothing: `!` of a base, or a base.
pub fn read(p: &[u32], h: &[u32], x: u32) -> Value
    ensures { result ≡ read_value p.now h.now x }
{
    let ExpressionEntry::Not(a) = tables::expression_at(p, x) else {
        return given(p, h, x);
    };
    if texts::truth(given(p, h, a)) {
        return Value::Int(0);
    }
    Value::Int(1)
}

// A new made text with these bytes; those below `low` are in use.
pub fn make_text(h: &mut [u32], t: &mut [u8], s: &[u8], low: u32) -> Value
    requires s_len_bound { length s.now ≤ 64 }
    requires texts_full { TextsFull h.old low }
    ensures { MakesText h.old t.old s.now result h.new t.new }
{
    let k = allocation::lowest_text(h, low);
    splice::write(t, 64 * words::wide(k), s);
    heap::take_text(h, k, s.len() as u32);
    Value::Text(Text::Made(k))
}

// A new made text with the bytes of the two values; those below `low` are in use.
pub fn join(p: &[u32], l: &[u8], h: &mut [u32], t: &mut [u8], v: Value, w: Value, low: u32) -> Value
    requires can_join { CanJoin p.now l.now h.old t.old v w }
    requires texts_full { TextsFull h.old low }
    ensures { Joins p.now l.now h.old t.old v w result h.new t.new }
{
    let mut bytes = [0u8; 64];
    let n = joining::fill_join(&mut bytes, p, l, h, t, v, w);
    make_text(h, t, &bytes[..n], low)
}

// What the operator of the kind gives between two values.
fn produce(
    p: &[u32],
    l: &[u8],
    h: &mut [u32],
    t: &mut [u8],
    kind: u32,
    v: Value,
    w: Value,
    low: u32,
) -> Value
    requires can_produce { CanProduce p.now l.now h.old t.old kind }
    requires texts_full { TextsFull h.old low }
    ensures { Produces p.now l.now h.old t.old kind v w result h.new t.new }
{
    match operators::operate(p, l, h, t, kind, v, w) {
        Ok(Operated::Integer(n)) => Value::Int(n),
        Ok(Operated::Joined) => join(p, l, h, t, v, w, low),
        Err(_) => Value::Int(0),
    }
}

// The same between the values of two expressions read as bases.
pub fn operation(
    p: &[u32],
    l: &[u8],
    h: &mut [u32],
    t: &mut [u8],
    kind: u32,
    a: u32,
    b: u32,
    low: u32,
) -> Value
    requires can_produce { CanProduce p.now l.now h.old t.old kind }
    requires texts_full { TextsFull h.old low }
    ensures { Operates p.now l.now h.old t.old kind a b result h.new t.new }
{
    let Some(v) = operands::operand(p, h, a) else {
        return Value::Int(0);
    };
    let Some(w) = operands::operand(p, h, b) else {
        return Value::Int(0);
    };
    produce(p, l, h, t, kind, v, w, low)
}
