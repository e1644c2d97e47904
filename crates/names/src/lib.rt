// Names of a source kept by where they begin and end, by first appearance: whether one is known, the number of each, and how many there are.
#![tactic(auto)]

ghost use Rattle.std.specs.Prelude.{◌≡◌, ◌+◌, ◌<◌};
ghost use Rattle.framed.specs.Common.{any, same};
ghost use Rattle.framed.specs.Symbols.{number_in};
ghost use Rattle.source.specs.Positions.{part};
ghost use Rattle.words.specs.Words.{word, set_word};
ghost use Rattle.names.specs.Kept.{table_of, hash_of, Marked, Few, Numbered, KeptAs};

pub mod table;

use words::wide;

pub fn place(m: &[usize], k: usize) -> usize
    ensures { result ≡ word m.now k }
{
    if k < m.len() {
        return m[k];
    }
    0
}

pub fn set_place(m: &mut [usize], k: usize, v: usize)
    ensures { m.new ≡ set_word m.old k v }
{
    if m.len() <= k {
        return;
    }
    m[k] = v;
}

// Two parts of the source are the same bytes.
fn same_parts(s: &[u8], a: usize, p: usize, b: usize, q: usize) -> bool
    ensures { result ≡ same (part s.now a p) (part s.now b q) }
{
    let v = token::token_bytes(s, a, p);
    let w = token::token_bytes(s, b, q);
    lexeme::is_word(v, w)
}

// The part from a up to p is one of the first n names kept, the last first.
pub fn known(s: &[u8], begins: &[usize], ends: &[usize], n: usize, a: usize, p: usize) -> bool
    ensures { result ≡ any (same (part s.now a p)) (table_of s.now begins.now ends.now n) }
{
    let mut k = n;
    while 0 < k {
        k -= 1;
        let b = place(begins, k);
        let q = place(ends, k);
        if same_parts(s, a, p, b, q) {
            return true;
        }
    }
    false
}

// ---- Hints: by the hash of its bytes, 1 and the number of a name that may be the one, or 0 where no name with that hash is kept

// The hash of the bytes from a up to p.
fn hash(s: &[u8], a: usize, p: usize) -> usize
    ensures value { result ≡ hash_of (part s.now a p) }
    ensures small { result < 4096 }
{
    let w = token::token_bytes(s, a, p);
    let mut h = 0u32;
    for i in 0..w.len() {
        let b = words::word(w, i);
        h = (h * 37 + (b as u32)) % 65536;
    }
    wide(h % 4096)
}

// The hint for the part from a up to p.
pub fn hint(s: &[u8], hints: &[u8; 4096], a: usize, p: usize) -> u32
    ensures { result ≡ word hints.now (hash_of (part s.now a p)) }
{
    let h = hash(s, a, p);
    let g = words::word(hints, h);
    g as u32
}

// ---- The number of a name

// The number of a word among the first n names kept; n where it is none of them.
pub fn number_of(s: &[u8], begins: &[usize], ends: &[usize], n: u32, w: &[u8]) -> u32
    ensures { result ≡ number_in (table_of s.now begins.now ends.now n) w.now }
{
    for k in 0..n {
        let a = place(begins, wide(k));
        let p = place(ends, wide(k));
        let v = token::token_bytes(s, a, p);
        if lexeme::is_word(v, w) {
            return k;
        }
    }
    n
}

// The number of the part from a up to p among the first n names kept; n where it is none of them. Where name k is the name itself, no other is looked at.
pub fn number_from(
    s: &[u8],
    begins: &[usize],
    ends: &[usize],
    n: u32,
    k: u32,
    a: usize,
    p: usize,
) -> u32
    requires { Numbered s.now begins.now ends.now n }
    ensures { result ≡ number_in (table_of s.now begins.now ends.now n) (part s.now a p) }
{
    if k < n {
        let b = place(begins, wide(k));
        let q = place(ends, wide(k));
        if same_parts(s, b, q, a, p) {
            return k;
        }
    }
    let w = token::token_bytes(s, a, p);
    number_of(s, begins, ends, n, w)
}

// The same by the hash of that part: where it has no hint, it is none of them.
fn number_hashed(
    s: &[u8],
    begins: &[usize],
    ends: &[usize],
    hints: &[u8; 4096],
    n: u32,
    h: usize,
    a: usize,
    p: usize,
) -> u32
    requires marked { Marked s.now begins.now ends.now hints.now n }
    requires numbered { Numbered s.now begins.now ends.now n }
    requires hashed { h ≡ hash_of (part s.now a p) }
    ensures { result ≡ number_in (table_of s.now begins.now ends.now n) (part s.now a p) }
{
    let g = words::word(hints, h);
    if g == 0 {
        return n;
    }
    let k = (g as u32) - 1;
    number_from(s, begins, ends, n, k, a, p)
}

// The number of the name from a up to p among those kept; a new one is kept as the next.
pub fn number(
    s: &[u8],
    begins: &mut [usize],
    ends: &mut [usize],
    hints: &mut [u8; 4096],
    n: u32,
    a: usize,
    p: usize,
) -> u32
    requires few { Few n }
    requires marked { Marked s.now begins.old ends.old hints.old n }
    requires numbered { Numbered s.now begins.old ends.old n }
    ensures { KeptAs s.now begins.old ends.old hints.old n a p begins.new ends.new hints.new result }
{
    let h = hash(s, a, p);
    let r = number_hashed(s, begins, ends, hints, n, h, a, p);
    if r != n {
        return r;
    }
    hints[h] = (n + 1) as u8;
    set_place(begins, wide(n), a);
    set_place(ends, wide(n), p);
    n
}
