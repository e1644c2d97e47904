// `#`: whether two values can be joined, and their bytes in a buffer. Each is joined as it is shown.
#![tactic(auto)]

ghost use Rattle.std.specs.Prelude.{◌≡◌, ◌+◌};
ghost use Rattle.framed.specs.Answers.{end_met};
ghost use Rattle.framed.specs.Values.{join_bytes};
ghost use Rattle.heap.specs.Held.{texts_held};
ghost use Rattle.shown.specs.Shown.{shown_size};
ghost use Rattle.splice.specs.Splice.{splice};
ghost use Rattle.texts.specs.Literals.{literals_held};
ghost use Rattle.texts.specs.Texts.{Readable};
ghost use Rattle.joining.specs.Joining.{join_end};

use framed::{End, Value};

// The end of `#`: 34 above 64 bytes, else none.
pub fn join_end(p: &[u32], h: &[u32], v: Value, w: Value) -> Result<(), End>
    ensures { end_met result ≡ join_end p.now h.now v w }
{
    let n = words::wide(shown::shown_size(p, h, v));
    let m = words::wide(shown::shown_size(p, h, w));
    if n + m <= 64 {
        return Ok(());
    }
    Err(End::TextLength)
}

// The bytes of the one, then those of the other, from the start of a buffer on: how many they are. What would lie past its end is dropped.
pub fn fill_join<'a>(
    m: &mut [u8],
    p: &[u32],
    l: &'a [u8],
    h: &[u32],
    t: &'a [u8],
    v: Value,
    w: Value,
) -> usize
    requires { Readable p.now l.now h.now t.now }
    ensures bytes { m.new ≡ splice m.old 0 (join_bytes (literals_held p.now l.now) (texts_held h.now t.now) v w) }
    ensures size { result ≡ shown_size p.now h.now v + shown_size p.now h.now w }
{
    let a = shown::write_shown(m, 0, p, l, h, t, v);
    let b = shown::write_shown(m, a, p, l, h, t, w);
    a + b
}
