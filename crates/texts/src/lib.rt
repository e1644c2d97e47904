// The bytes of a text as a part of the literal bytes or of the text bytes; equality of texts, and truth.
#![tactic(auto)]

ghost use Rattle.std.specs.Prelude.{◌≡◌, [], get_or};
ghost use Rattle.framed.specs.Common.{same};
ghost use Rattle.framed.specs.Values.{text_bytes, truth};
ghost use Rattle.heap.specs.Held.{texts_held};
ghost use Rattle.texts.specs.Literals.{literals_held};
ghost use Rattle.texts.specs.Texts.{part_of, Inside, Readable, LiteralsInside, TextsInside, text_size, same_literal_bytes, same_texts};

use framed::{Text, Value};

// The n bytes of a memory from a place on.
fn part<'a>(m: &'a [u8], from: usize, n: usize) -> &'a [u8]
    requires { Inside m.now from n }
    ensures { result.now ≡ part_of m.now from n }
{
    &m[from..from + n]
}

// The bytes of literal k: none where the program has no such literal.
fn literal_bytes<'a>(p: &[u32], l: &'a [u8], k: u32) -> &'a [u8]
    requires { LiteralsInside p.now l.now }
    ensures { result.now ≡ get_or (literals_held p.now l.now) k [] }
{
    if tables::literals(p) <= k {
        return &l[0..0];
    }
    part(
        l,
        64 * words::wide(k),
        words::wide(tables::literal_length(p, k)),
    )
}

// The bytes of made text k: none where it is not in use.
fn made_bytes<'a>(h: &[u32], t: &'a [u8], k: u32) -> &'a [u8]
    requires { TextsInside h.now t.now }
    ensures { result.now ≡ get_or (texts_held h.now t.now) k [] }
{
    if 256 <= k {
        return &t[0..0];
    }
    part(t, 64 * words::wide(k), words::wide(heap::text_length(h, k)))
}

pub fn text_bytes<'a>(p: &[u32], l: &'a [u8], h: &[u32], t: &'a [u8], x: Text) -> &'a [u8]
    requires { Readable p.now l.now h.now t.now }
    ensures { result.now ≡ text_bytes (literals_held p.now l.now) (texts_held h.now t.now) x }
{
    match x {
        Text::Literal(k) => literal_bytes(p, l, k),
        Text::Made(k) => made_bytes(h, t, k),
    }
}

// How many bytes a text has.
pub fn text_size(p: &[u32], h: &[u32], x: Text) -> u32
    ensures { result ≡ text_size p.now h.now x }
{
    match x {
        Text::Literal(k) => {
            if k < tables::literals(p) {
                return tables::literal_length(p, k);
            }
            0
        }
        Text::Made(k) => {
            if k < 256 {
                return heap::text_length(h, k);
            }
            0
        }
    }
}

// No byte ends the loop, so that compiled code compares many at once.
fn same_bytes(a: &[u8], b: &[u8]) -> bool
    ensures { result ≡ same a.now b.now }
{
    if a.len() != b.len() {
        return false;
    }
    let mut agree = true;
    for i in 0..a.len() {
        agree = agree & (a[i] == b[i]);
    }
    agree
}

// Literals k and m have equal bytes.
pub fn same_literal_bytes(p: &[u32], l: &[u8], k: u32, m: u32) -> bool
    requires { LiteralsInside p.now l.now }
    ensures { result ≡ same_literal_bytes (literals_held p.now l.now) k m }
{
    same_bytes(literal_bytes(p, l, k), literal_bytes(p, l, m))
}

// `==` of two texts: their bytes.
pub fn same_texts<'a>(p: &[u32], l: &'a [u8], h: &[u32], t: &'a [u8], x: Text, y: Text) -> bool
    requires { Readable p.now l.now h.now t.now }
    ensures { result ≡ same_texts (literals_held p.now l.now) (texts_held h.now t.now) x y }
{
    same_bytes(text_bytes(p, l, h, t, x), text_bytes(p, l, h, t, y))
}

// All but integer 0 are true.
pub fn truth(v: Value) -> bool
    ensures { result ≡ truth v }
{
    let Value::Int(n) = v else {
        return true;
    };
    arith::nonzero(n)
}
