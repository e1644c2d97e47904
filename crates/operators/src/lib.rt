// An operator between two values, by its kind in the program words (7 to 15). It reads only: of `#` it says that the values can be joined.
#![tactic(auto)]

ghost use Rattle.std.specs.Prelude.{◌≡◌};
ghost use Rattle.framed.specs.Answers.{end_met};
ghost use Rattle.framed.specs.Equality.{equal_values};
ghost use Rattle.bounded.specs.Check.{end_of};
ghost use Rattle.bounded.specs.Operations.{operated};
ghost use Rattle.heap.specs.Held.{texts_held};
ghost use Rattle.program_equality.specs.Agreement.{constants_held};
ghost use Rattle.arith.specs.Arith.{outcome};
ghost use Rattle.operators.specs.Operators.{Comparable, operator_of, integer_operated, arithmetic_operated, compared, Operates};

use framed::{End, Value};

// What an operator gives: an integer, or the bytes of the two values joined.
#[derive(Clone, Copy)]
pub enum Operated {
    Integer(i32),
    Joined,
}

// `+ - * / <` of two integers, kinds 7 to 11.
fn integers(kind: u32, a: i32, b: i32) -> Result<i32, End>
    ensures { outcome result ≡ integer_operated kind a b }
{
    match kind {
        7 => arith::plus(a, b),
        8 => arith::minus(a, b),
        9 => arith::times(a, b),
        10 => arith::over(a, b),
        _ => Ok(arith::less(a, b) as i32),
    }
}

// `+ - * / <` first want two integers.
pub fn arithmetic(kind: u32, v: Value, w: Value) -> Result<i32, End>
    ensures { outcome result ≡ arithmetic_operated kind v w }
{
    match (v, w) {
        (Value::Int(a), Value::Int(b)) => integers(kind, a, b),
        _ => Err(End::NoRule),
    }
}

// `==`
fn equal_values<'a>(p: &[u32], l: &'a [u8], h: &[u32], t: &'a [u8], v: Value, w: Value) -> bool
    requires { Comparable p.now l.now h.now t.now }
    ensures { result ≡ equal_values (constants_held p.now l.now) (texts_held h.now t.now) v w }
{
    match (v, w) {
        (Value::Int(y), Value::Int(z)) => arith::same(y, z),
        (Value::Text(x), Value::Text(y)) => texts::same_texts(p, l, h, t, x, y),
        (Value::Code(k), Value::Code(m)) => program_equality::same_codes(p, l, k, m),
        (Value::Frame(f), Value::Frame(g)) => f == g,
        _ => false,
    }
}

// `== && ||`, kinds 13 to 15.
pub fn compare<'a>(
    p: &[u32],
    l: &'a [u8],
    h: &[u32],
    t: &'a [u8],
    kind: u32,
    v: Value,
    w: Value,
) -> bool
    requires { Comparable p.now l.now h.now t.now }
    ensures { result ≡ compared (constants_held p.now l.now) (texts_held h.now t.now) kind v w }
{
    if kind == 13 {
        return equal_values(p, l, h, t, v, w);
    }
    if kind == 14 {
        return texts::truth(v) & texts::truth(w);
    }
    texts::truth(v) | texts::truth(w)
}

pub fn operate<'a>(
    p: &[u32],
    l: &'a [u8],
    h: &[u32],
    t: &'a [u8],
    kind: u32,
    v: Value,
    w: Value,
) -> Result<Operated, End>
    requires { Comparable p.now l.now h.now t.now }
    ensures { Operates p.now l.now h.now t.now kind v w result }
{
    if kind < 12 {
        return Ok(Operated::Integer(arithmetic(kind, v, w)?));
    }
    if kind == 12 {
        joining::join_end(p, h, v, w)?;
        return Ok(Operated::Joined);
    }
    Ok(Operated::Integer(compare(p, l, h, t, kind, v, w) as i32))
}

// The end that an operator meets. A comparison meets none, so it is not made.
pub fn operate_end<'a>(
    p: &[u32],
    l: &'a [u8],
    h: &[u32],
    t: &'a [u8],
    kind: u32,
    v: Value,
    w: Value,
) -> Result<(), End>
    ensures { end_met result ≡ end_of (operated (constants_held p.now l.now) (texts_held h.now t.now) (operator_of kind) v w) }
{
    if 12 < kind {
        return Ok(());
    }
    if 12 <= kind {
        return joining::join_end(p, h, v, w);
    }
    arithmetic(kind, v, w)?;
    Ok(())
}
