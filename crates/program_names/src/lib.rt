// The tests of limits, names, literals and path names of program words and literal bytes. No function here has a `requires`.
// A table is tested by a loop: `(0..n).all(..)` leaves a goal about the runs of a range, for which std has no lemma.
#![tactic(auto)]

ghost use Rattle.std.specs.Prelude.{◌≡◌};
ghost use Rattle.framed.specs.Bytes.{string_byte};
ghost use Rattle.program_names.specs.Keys.{name_key, other_keys, is_new, name_ok_by};
ghost use Rattle.program_names.specs.Tests.{limits_ok, name_bytes_ok, same_bytes, names_differ, new_name};
ghost use Rattle.program_names.specs.Tests.{names_ok, literal_byte_ok, literal_bytes_ok, literal_ok, literals_ok, path_name_ok, path_names_ok, texts_ok};

use tables::{
    codes, expressions, frame_limit, instructions, literal_byte, literal_length, literals,
    name_byte, name_length, names, path_name, path_names, start, text_limit,
};
use words::{set_word, wide, word};

pub fn limits_ok(p: &[u32]) -> bool
    ensures { result ≡ limits_ok p.now }
{
    (3 <= frame_limit(p))
        & (frame_limit(p) <= 256)
        & (text_limit(p) <= 256)
        & (names(p) <= 128)
        & (literals(p) <= 128)
        & (expressions(p) <= 1024)
        & (instructions(p) <= 512)
        & (codes(p) <= 128)
        & (path_names(p) <= 2048)
        & (start(p) < codes(p))
}

// up to the end of name k, or to the first byte that differs
fn same_bytes(p: &[u32], k: u32, j: u32) -> bool
    ensures { result ≡ same_bytes p.now k j }
{
    let n = name_length(p, k);
    for i in 0..16 {
        if n <= i {
            return true;
        }
        if name_byte(p, k, i) != name_byte(p, j, i) {
            return false;
        }
    }
    true
}

fn names_differ(p: &[u32], k: u32, j: u32) -> bool
    ensures { result ≡ names_differ p.now k j }
{
    if name_length(p, k) != name_length(p, j) {
        return true;
    }
    !same_bytes(p, k, j)
}

// no name before k is name k
fn new_name(p: &[u32], k: u32) -> bool
    ensures { result ≡ new_name p.now k }
{
    let mut ok = true;
    for j in 0..k {
        ok &= names_differ(p, k, j);
    }
    ok
}

// What one reading of a name tells: whether its bytes are bytes, and its key. No option: the key is kept where they are not, too.
#[derive(Clone, Copy)]
struct Spelled {
    plain: bool,
    key: u32,
}

// The key of name k depends only on its length and its bytes: names of different keys are different.
fn spell(p: &[u32], k: u32) -> Spelled
    ensures plain { result.plain ≡ name_bytes_ok p.now k }
    ensures key { result.key ≡ name_key p.now k }
{
    let n = name_length(p, k);
    let mut plain = true;
    let mut key = n % 65536;
    for i in 0..16 {
        if n <= i {
            return Spelled { plain, key };
        }
        let b = name_byte(p, k, i);
        plain &= b < 256;
        key = key % 16777216 * 37 + b % 65536;
    }
    Spelled { plain, key }
}

// none of the first n keys is x
fn other_keys(keys: &[u32], n: usize, x: u32) -> bool
    ensures { result ≡ other_keys keys.now n x }
{
    let mut ok = true;
    for j in 0..n {
        ok &= (word(keys, j) != x);
    }
    ok
}

// No name before k is name k, which has the key x: the keys of the names before tell it, or else the names are compared.
fn is_new(p: &[u32], keys: &[u32], k: u32, x: u32) -> bool
    ensures { result ≡ is_new p.now keys.now k x }
{
    if 128 < k {
        return new_name(p, k);
    }
    if other_keys(keys, wide(k), x) {
        return true;
    }
    new_name(p, k)
}

fn name_ok(p: &[u32], keys: &[u32], k: u32, plain: bool, x: u32) -> bool
    ensures { result ≡ name_ok_by p.now keys.now k plain x }
{
    (1 <= name_length(p, k)) & (name_length(p, k) <= 16) & plain & is_new(p, keys, k, x)
}

fn names_ok(p: &[u32]) -> bool
    ensures { result ≡ names_ok p.now }
{
    let n = names(p);
    let mut keys = [0u32; 128];
    let mut ok = true;
    for k in 0..n {
        let Spelled { plain, key } = spell(p, k);
        ok &= name_ok(p, &keys, k, plain, key);
        set_word(&mut keys, wide(k), key);
    }
    ok
}

// a byte that may stand in a string
fn string_byte(b: u8) -> bool
    ensures { result ≡ string_byte b }
{
    (32 <= b) & (b <= 126) & (b != 34)
}

fn literal_byte_ok(p: &[u32], l: &[u8], k: u32, i: u32) -> bool
    ensures { result ≡ literal_byte_ok p.now l.now k i }
{
    string_byte(literal_byte(l, k, i)) | (literal_length(p, k) <= i)
}

fn literal_bytes_ok(p: &[u32], l: &[u8], k: u32) -> bool
    ensures { result ≡ literal_bytes_ok p.now l.now k }
{
    let n = literal_length(p, k);
    let mut ok = true;
    for i in 0..64 {
        if n <= i {
            return ok;
        }
        ok &= literal_byte_ok(p, l, k, i);
    }
    ok
}

fn literal_ok(p: &[u32], l: &[u8], k: u32) -> bool
    ensures { result ≡ literal_ok p.now l.now k }
{
    (literal_length(p, k) <= 64) & literal_bytes_ok(p, l, k)
}

fn literals_ok(p: &[u32], l: &[u8]) -> bool
    ensures { result ≡ literals_ok p.now l.now }
{
    let n = literals(p);
    let mut ok = true;
    for k in 0..n {
        ok &= literal_ok(p, l, k);
    }
    ok
}

fn path_name_ok(p: &[u32], j: u32) -> bool
    ensures { result ≡ path_name_ok p.now j }
{
    path_name(p, j) < names(p)
}

fn path_names_ok(p: &[u32]) -> bool
    ensures { result ≡ path_names_ok p.now }
{
    let n = path_names(p);
    let mut ok = true;
    for j in 0..n {
        ok &= path_name_ok(p, j);
    }
    ok
}

pub fn texts_ok(p: &[u32], l: &[u8]) -> bool
    ensures { result ≡ texts_ok p.now l.now }
{
    names_ok(p) & literals_ok(p, l) & path_names_ok(p)
}
