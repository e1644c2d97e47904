// The bytes of a text as a part of the literal bytes or of the text bytes, with one lifetime over both.
#![tactic(auto)]

ghost use Rattle.std.specs.Prelude.{◌≡◌};
ghost use Rattle.texts.specs.Texts.{Inside};
ghost use Rattle.look_part.specs.Part.{PartOf, InMemory, PartIs, literal_part, made_part, text_part, part_found};

use framed::{Text, Value};
use look_path::Resolved;
use words::wide;

// A part of the literal bytes or of the text bytes: where it begins, and how many bytes it has.
#[derive(Clone, Copy)]
pub enum Part {
    Literal(usize, usize),
    Made(usize, usize),
}

// The part that literal k is.
fn literal_part(p: &[u32], k: u32) -> Part
    ensures { result ≡ literal_part p.now k }
{
    if tables::literals(p) <= k {
        return Part::Literal(0, 0);
    }
    Part::Literal(64 * wide(k), wide(tables::literal_length(p, k)))
}

// The part that made text k is.
fn made_part(h: &[u32], k: u32) -> Part
    ensures { result ≡ made_part h.now k }
{
    if 256 <= k {
        return Part::Literal(0, 0);
    }
    Part::Made(64 * wide(k), wide(heap::text_length(h, k)))
}

fn text_part(p: &[u32], h: &[u32], x: Text) -> Part
    ensures { result ≡ text_part p.now h.now x }
{
    match x {
        Text::Literal(k) => literal_part(p, k),
        Text::Made(k) => made_part(h, k),
    }
}

// The part of what a path leads to: of a text its bytes, else no bytes.
pub fn part_found(p: &[u32], h: &[u32], x: Resolved) -> Part
    ensures { result ≡ part_found p.now h.now x }
{
    let Resolved::Found(v) = x else {
        return Part::Literal(0, 0);
    };
    let Value::Text(t) = v else {
        return Part::Literal(0, 0);
    };
    text_part(p, h, t)
}

// The n bytes of a memory from a place on.
fn cut<'a>(m: &'a [u8], from: usize, n: usize) -> &'a [u8]
    requires { Inside m.now from n }
    ensures { PartOf m.entry from n result }
{
    &m[from..from + n]
}

// The part where there is no text.
pub fn empty_part<'a>(l: &'a [u8]) -> &'a [u8]
    ensures { PartOf l.entry 0 0 result }
{
    &l[0..0]
}

// The part itself.
pub fn part_bytes<'a>(l: &'a [u8], t: &'a [u8], x: Part) -> &'a [u8]
    requires { InMemory l.now t.now x }
    ensures { PartIs l.entry t.entry x result }
{
    match x {
        Part::Literal(from, n) => cut(l, from, n),
        Part::Made(from, n) => cut(t, from, n),
    }
}
