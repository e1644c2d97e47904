// The line of a show: what is shown of the value, then byte 10, written into the output buffer where it fits.
#![tactic(auto)]

ghost use Rattle.std.specs.Prelude.{[], ◌∷◌, ◌++◌, ◌≤◌, length};
ghost use Rattle.framed.specs.Values.{decimal};
ghost use Rattle.heap.specs.Held.{texts_held};
ghost use Rattle.texts.specs.Literals.{literals_held};
ghost use Rattle.texts.specs.Texts.{Readable};
ghost use Rattle.line.specs.Line.{line_bytes, WritesLine};

use framed::Value;

// Bytes and byte 10 behind them at a position of the buffer, where both fit: how many they are. Else 0, and nothing is written.
fn write_bytes(m: &mut [u8], at: usize, s: &[u8]) -> usize
    requires { at ≤ length m.old }
    ensures { WritesLine (s.now ++ (10 ∷ [])) m.old at result m.new }
{
    let n = s.len();
    if m.len() - at <= n {
        return 0;
    }
    splice::write(m, at, s);
    words::set_word(m, at + n, 10);
    n + 1
}

// The decimal integer and byte 10 behind it. Its digits are found once, and copied.
fn write_integer(m: &mut [u8], at: usize, n: i32) -> usize
    requires { at ≤ length m.old }
    ensures { WritesLine (decimal n ++ (10 ∷ [])) m.old at result m.new }
{
    let mut bytes = [0u8; 11];
    let start = decimal::decimal(&mut bytes, n);
    write_bytes(m, at, &bytes[start..])
}

// The line at a position of the buffer, where it fits: its size. Else 0, and nothing is written.
pub fn write_line<'a>(
    m: &mut [u8],
    at: usize,
    p: &[u32],
    l: &'a [u8],
    h: &[u32],
    t: &'a [u8],
    v: Value,
) -> usize
    requires readable { Readable p.now l.now h.now t.now }
    requires at_in_bounds { at ≤ length m.old }
    ensures { WritesLine (line_bytes (literals_held p.now l.now) (texts_held h.now t.now) v) m.old at result m.new }
{
    match v {
        Value::Int(n) => write_integer(m, at, n),
        Value::Text(x) => write_bytes(m, at, texts::text_bytes(p, l, h, t, x)),
        Value::Code(_) => write_bytes(m, at, b"code"),
        Value::Frame(_) => write_bytes(m, at, b"frame"),
    }
}
