// What is shown of a value, without byte 10, as `#` joins it: how many bytes, and the bytes.
#![tactic(auto)]

ghost use Rattle.std.specs.Prelude.{◌≡◌, ◌^◌, ◌<◌, length};
ghost use Rattle.framed.specs.Values.{decimal, shown};
ghost use Rattle.heap.specs.Held.{texts_held};
ghost use Rattle.splice.specs.Splice.{splice};
ghost use Rattle.texts.specs.Literals.{literals_held};
ghost use Rattle.texts.specs.Texts.{Readable};
ghost use Rattle.shown.specs.Shown.{shown_size};

use framed::Value;

// Bytes, written at a position: how many they are.
fn write_bytes(m: &mut [u8], at: usize, s: &[u8]) -> usize
    ensures bytes { m.new ≡ splice m.old at s.now }
    ensures size { result ≡ length s.now }
    ensures below { result < 2 ^ 63 }
{
    splice::write(m, at, s);
    s.len()
}

// The decimal integer, written at a position: how many bytes it has. Its digits are found once.
fn write_integer(m: &mut [u8], at: usize, n: i32) -> usize
    ensures bytes { m.new ≡ splice m.old at (decimal n) }
    ensures size { result ≡ length (decimal n) }
    ensures below { result < 2 ^ 63 }
{
    let mut bytes = [0u8; 11];
    let start = decimal::decimal(&mut bytes, n);
    write_bytes(m, at, &bytes[start..])
}

// How many bytes are shown of a value. No digit is found for it.
pub fn shown_size(p: &[u32], h: &[u32], v: Value) -> u32
    ensures { result ≡ shown_size p.now h.now v }
{
    match v {
        Value::Int(n) => decimal::size(n),
        Value::Text(x) => texts::text_size(p, h, x),
        Value::Code(_) => 4,
        Value::Frame(_) => 5,
    }
}

// What is shown of a value, written at a position: how many bytes it has.
pub fn write_shown<'a>(
    m: &mut [u8],
    at: usize,
    p: &[u32],
    l: &'a [u8],
    h: &[u32],
    t: &'a [u8],
    v: Value,
) -> usize
    requires { Readable p.now l.now h.now t.now }
    ensures bytes { m.new ≡ splice m.old at (shown (literals_held p.now l.now) (texts_held h.now t.now) v) }
    ensures size { result ≡ shown_size p.now h.now v }
    ensures below { result < 2 ^ 63 }
{
    match v {
        Value::Int(n) => write_integer(m, at, n),
        Value::Text(x) => write_bytes(m, at, texts::text_bytes(p, l, h, t, x)),
        Value::Code(_) => write_bytes(m, at, b"code"),
        Value::Frame(_) => write_bytes(m, at, b"frame"),
    }
}
