// Tokens of a source that were read, and its end, kept by the position at which they were read, so that later passes need not read them anew; what no entry
// keeps is read anew. A name is kept with a note.
#![tactic(auto)]

ghost use Rattle.std.specs.Prelude.{◌≡◌, ◌/◌, ◌%◌, eqb};
ghost use Rattle.framed.specs.Common.{when◌then◌else◌};
ghost use Rattle.framed.specs.Bytes.{class};
ghost use Rattle.token_cache.specs.Single.{Cached-prop};
ghost use Rattle.words.specs.Words.{word, set_word};
ghost use Rattle.token.specs.Reading.{TokenAt};
ghost use Rattle.token_cache.specs.Cache.{Cached, CanStore, CanEnd, Small, Packs, NotesFrom, held, packed, with_entry, note_at};

use token::TokenRead;

// A source, and the cache from which its tokens can be read.
#[derive(Clone, Copy)]
pub struct Tokens<'a> {
    pub cache: &'a [u64; 16384],
    pub source: &'a [u8],
    pub ghost cached: { Cached cache.now source.now } by { Cached-prop cache.now source.now },
}

// What an entry holds above kind, begin and end, where its kind is k, else 0.
fn last_of(e: u64, k: u64) -> u32
    ensures { result ≡ (when eqb (e % 32) k then e / 34359738368 % 536870912 else 0) }
{
    if e % 32 == k {
        return (e / 34359738368 % 536870912) as u32;
    }
    0
}

// The token that an entry above 31 stands for.
fn unpack(e: u64) -> TokenRead
    ensures { result ≡ held e }
{
    let k = (e % 32) as u32;
    let a = (e / 32 % 32768) as usize;
    let p = (e / 1048576 % 32768) as usize;
    let w = last_of(e, 26);
    TokenRead::Token(k, a, p, w)
}

// The entry of a token.
fn pack(k: u32, a: usize, p: usize, w: u32) -> u64
    requires { Small k a p w }
    ensures { result ≡ packed k a p w }
{
    let x = (p as u64) + 32768 * (w as u64);
    let y = (a as u64) + 32768 * x;
    (k as u64) + 32 * y
}

// The entry of a position; 0 past the end.
fn entry_at(c: &[u64], at: usize) -> u64
    ensures { result ≡ word c.now at }
{
    if at < c.len() {
        return c[at];
    }
    0
}

// The note of the name that is kept at a position; 0 where there is none.
pub fn note(c: &[u64; 16384], at: usize) -> u32
    ensures { result ≡ note_at c.now at }
{
    let e = entry_at(c, at);
    last_of(e, 25)
}

impl<'a> Tokens<'a> {
    // The token at a position, after spaces and comments. Inlined, since most tokens are in the cache, and the grammar reads each.
    #[inline(always)]
    pub fn token_at(&self, at: usize) -> TokenRead
        ensures { TokenAt class self.now.source.now at result }
    {
        if at < 16384 {
            let e = self.cache[at];
            if 31 < e {
                return unpack(e);
            }
            if e == 31 {
                return TokenRead::End;
            }
        }
        token::token_at(self.source, at)
    }

    // The note of the name that is kept at a position; 0 where there is none.
    pub fn note_at(&self, at: usize) -> u32
        ensures { result ≡ note_at self.now.cache.now at }
    {
        note(self.cache, at)
    }
}

// The token at a position of a source, by a cache.
pub fn token_in(c: &[u64; 16384], s: &[u8], at: usize) -> TokenRead
    requires { Cached c.now s.now }
    ensures { TokenAt class s.now at result }
{
    let tokens = Tokens {
        cache: c,
        source: s,
    };
    tokens.token_at(at)
}

// Sets the entry of a position, where there is room for its parts; the last is an integer's word or a name's note.
fn set_entry(c: &mut [u64; 16384], at: usize, k: u32, a: usize, p: usize, x: u32)
    requires { Packs k a p }
    ensures { c.new ≡ with_entry c.old at k a p x }
{
    if 16384 <= at {
        return;
    }
    if 32768 <= p {
        return;
    }
    if 536870912 <= x {
        return;
    }
    c[at] = pack(k, a, p, x);
}

// Keeps the token that was read at a position, without a note, where its entry has room for it.
pub fn store(c: &mut [u64; 16384], s: &[u8], at: usize, k: u32, a: usize, p: usize, w: u32)
    requires { CanStore c.old s.now at k a p w }
    ensures entry { c.new ≡ with_entry c.old at k a p w }
    ensures cached { Cached c.new s.now }
    ensures notes { NotesFrom c.old c.new at 0 }
{
    set_entry(c, at, k, a, p, w);
}

// Keeps the name that was read at a position, with the note g, where its entry has room for them.
pub fn store_name(c: &mut [u64; 16384], s: &[u8], at: usize, a: usize, p: usize, w: u32, g: u32)
    requires { CanStore c.old s.now at 25 a p w }
    ensures entry { c.new ≡ with_entry c.old at 25 a p g }
    ensures cached { Cached c.new s.now }
    ensures notes { NotesFrom c.old c.new at g }
{
    set_entry(c, at, 25, a, p, g);
}

// Keeps that the source has no more tokens from a position on.
pub fn store_end(c: &mut [u64; 16384], s: &[u8], at: usize)
    requires { CanEnd c.old s.now at }
    ensures entry { c.new ≡ set_word c.old at 31 }
    ensures cached { Cached c.new s.now }
    ensures notes { NotesFrom c.old c.new at 0 }
{
    if 16384 <= at {
        return;
    }
    c[at] = 31;
}
