// Words of a program's text, appended to a lent buffer. What would lie past the buffer's end is dropped, and no more than `limit` bytes are counted: a longer text
// has the position limit + 1. Each function answers the position behind what it appended.
#![tactic(auto)]

ghost use Rattle.std.specs.Prelude.{◌≡◌, [], min, ◌+◌, ◌^◌, ◌≤◌, ◌<◌, get_or};
ghost use Rattle.framed.specs.Writer.{common_prefix};
ghost use Rattle.trees.specs.Trees.{path_list};
ghost use Rattle.splice.specs.Splice.{splice};
ghost use Rattle.write_words.specs.Appending.{capped, CanAppend, Appended};
ghost use Rattle.write_words.specs.Words.{name_table, integer_text, string_text, operator_text, self_path_text, program_path_text, names_text, climbs_text};
ghost use Rattle.write_words.specs.Words.{AtName, AtLiteral, AtPath, FitsBytes};

use words::wide;

// The position behind n more bytes.
fn moved(limit: usize, at: usize, n: usize) -> usize
    requires { (at ≤ limit + 1) × (limit < 2 ^ 63) }
    ensures { result ≡ capped limit (at + n) }
{
    at.saturating_add(n).min(limit + 1)
}

// Bytes as they are.
pub fn append(m: &mut [u8], limit: usize, at: usize, s: &[u8]) -> usize
    requires { CanAppend m.old limit at }
    ensures { Appended m.old limit at s.now m.new result }
{
    splice::write(m, at, s);
    moved(limit, at, s.len())
}

// Words that are bytes and all fit.
fn copy_words(m: &mut [u8], at: usize, w: &[u32])
    requires { FitsBytes m.old at w.now }
    ensures { m.new ≡ splice m.old at w.now }
{
    for j in 0..w.len() {
        m[at + j] = w[j] as u8;
    }
}

// The bytes of name k, as far as they fit.
fn write_name(p: &[u32], m: &mut [u8], at: usize, k: u32)
    requires { AtName p.now k }
    ensures { m.new ≡ splice m.old at (get_or (name_table p.now) k []) }
{
    let size = m.len();
    if size <= at {
        return;
    }
    let from = 65 + 17 * wide(k);
    let n = wide(tables::name_length(p, k)).min(size - at);
    copy_words(m, at, &p[from..from + n]);
}

// Name k.
pub fn append_name(p: &[u32], m: &mut [u8], limit: usize, at: usize, k: u32) -> usize
    requires { AtName p.now k × CanAppend m.old limit at }
    ensures { Appended m.old limit at (get_or (name_table p.now) k []) m.new result }
{
    write_name(p, m, at, k);
    moved(limit, at, wide(tables::name_length(p, k)))
}

// An integer, with a space before it. Never inlined, so that its digits are not on the stack at each level of a program.
#[inline(never)]
pub fn append_integer(m: &mut [u8], limit: usize, at: usize, n: i32) -> usize
    requires { CanAppend m.old limit at }
    ensures { Appended m.old limit at (integer_text n) m.new result }
{
    let mut bytes = [0u8; 11];
    let start = decimal::decimal(&mut bytes, n);
    let a = append(m, limit, at, b" ");
    append(m, limit, a, &bytes[start..])
}

// String literal k, with a space before it. Never inlined, likewise.
#[inline(never)]
pub fn append_string(p: &[u32], l: &[u8], m: &mut [u8], limit: usize, at: usize, k: u32) -> usize
    requires { AtLiteral p.now l.now k × CanAppend m.old limit at }
    ensures { Appended m.old limit at (string_text p.now l.now k) m.new result }
{
    let from = 64 * wide(k);
    let end = from + wide(tables::literal_length(p, k));
    let a = append(m, limit, at, b" \"");
    let b = append(m, limit, a, &l[from..end]);
    append(m, limit, b, b"\"")
}

// The operator of a kind from 7 to 15, with a space before it.
pub fn append_operator(m: &mut [u8], limit: usize, at: usize, kind: u32) -> usize
    requires { CanAppend m.old limit at }
    ensures { Appended m.old limit at (operator_text kind) m.new result }
{
    match kind {
        7 => append(m, limit, at, b" +"),
        8 => append(m, limit, at, b" -"),
        9 => append(m, limit, at, b" *"),
        10 => append(m, limit, at, b" /"),
        11 => append(m, limit, at, b" <"),
        12 => append(m, limit, at, b" #"),
        13 => append(m, limit, at, b" =="),
        14 => append(m, limit, at, b" &&"),
        _ => append(m, limit, at, b" ||"),
    }
}

// Dot and name, for the n path names from j on.
fn append_names(p: &[u32], m: &mut [u8], limit: usize, at: usize, j: u32, n: u32) -> usize
    requires { AtPath p.now j n × CanAppend m.old limit at }
    ensures { Appended m.old limit at (names_text p.now j n) m.new result }
{
    let mut b = at;
    for i in 0..n {
        let a = append(m, limit, b, b".");
        b = append_name(p, m, limit, a, tables::path_name(p, j + i));
    }
    b
}

// Dot and `^`, k times.
fn append_climbs(m: &mut [u8], limit: usize, at: usize, k: usize) -> usize
    requires { CanAppend m.old limit at }
    ensures { Appended m.old limit at (climbs_text k) m.new result }
{
    let mut b = at;
    for i in 0..k {
        b = append(m, limit, b, b".^");
    }
    b
}

// How many of the n path names from j on are those of the holding frame, from the front.
fn common_prefix(p: &[u32], holding: &[u32], j: u32, n: u32) -> u32
    requires { AtPath p.now j n }
    ensures { result ≡ common_prefix holding.now (path_list p.now n j) }
{
    for i in 0..n {
        let k = wide(i);
        if holding.len() <= k {
            return i;
        }
        if holding[k] != tables::path_name(p, j + i) {
            return i;
        }
    }
    n
}

// A path from the frame itself, with a space before it. Never inlined, likewise.
#[inline(never)]
pub fn append_self_path(p: &[u32], m: &mut [u8], limit: usize, at: usize, j: u32, n: u32) -> usize
    requires { AtPath p.now j n × CanAppend m.old limit at }
    ensures { Appended m.old limit at (self_path_text p.now j n) m.new result }
{
    let a = append(m, limit, at, b" self");
    append_names(p, m, limit, a, j, n)
}

// A path from the program, with a space before it: it climbs from the holding frame to the deepest frame that the two share.
pub fn append_program_path(
    p: &[u32],
    holding: &[u32],
    m: &mut [u8],
    limit: usize,
    at: usize,
    j: u32,
    n: u32,
) -> usize
    requires { AtPath p.now j n × CanAppend m.old limit at }
    ensures { Appended m.old limit at (program_path_text p.now holding.now j n) m.new result }
{
    let c = common_prefix(p, holding, j, n);
    let shared = wide(c);
    let further = holding.len() - shared;
    let from = j + c;
    let rest = n - c;
    let a = append(m, limit, at, b" ^");
    let b = append_climbs(m, limit, a, further);
    append_names(p, m, limit, b, from, rest)
}
