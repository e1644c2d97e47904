// One pass over a source: its tokens are kept where the cache has room, with a note at each name, its names and the places of its strings too; its sums are taken and its frames watched. Numbers 4 and 5.
#![tactic(auto)]

ghost use Rattle.std.specs.Prelude.{◌≡◌, length};
ghost use Rattle.sweep.specs.Decides.{Short};
ghost use Rattle.token_cache.specs.Cache.{Cached, Unnoted};
ghost use Rattle.names.specs.Kept.{Sized};
ghost use Rattle.survey.specs.Survey.{count_after, CanTake, Taken, Few, Surveyed};

use framed::LoadRefusal;
use sums::Totals;
use token::TokenRead;

// What is found: whether a number refuses the source as tokens; how many names and strings are kept; whether no frame has a name twice or more than 16 slots, as far as that was seen (true is certain, false decides nothing); the sums.
#[derive(Clone, Copy)]
pub struct Findings {
    pub refusal: Result<(), LoadRefusal>,
    pub names: u32,
    pub strings: u32,
    pub clean: bool,
    pub totals: Totals,
}

// Keeps a token of kind k, a name with its number, where at most 128 names are kept before: the number, else 255.
#[tactic(auto, using(crate::proofs::Laws::taken_name))]
fn take(
    c: &mut [u64; 16384],
    s: &[u8],
    begins: &mut [usize],
    ends: &mut [usize],
    hints: &mut [u8; 4096],
    n: u32,
    at: usize,
    k: u32,
    a: usize,
    p: usize,
    w: u32,
) -> u32
    requires { CanTake c.old s.now begins.old ends.old hints.old n at k a p w }
    ensures cached { Cached c.new s.now }
    ensures taken { Taken c.old s.now begins.old ends.old hints.old n at k a p w c.new begins.new ends.new hints.new result }
{
    if k == 25 {
        if n <= 128 {
            let j = names::number(s, begins, ends, hints, n, a, p);
            token_cache::store_name(c, s, at, a, p, w, j + 1);
            return j;
        }
    }
    token_cache::store(c, s, at, k, a, p, w);
    255
}

// How many names are kept after one whose number is j.
fn count_after(n: u32, j: u32) -> u32
    requires { Few n }
    ensures { result ≡ count_after n j }
{
    if j == n {
        return n + 1;
    }
    n
}

// Reads the source token by token, each from the position that the reader gave back, up to its end or to bytes that form no token. The names are kept, and the places of the first 129 strings.
pub fn survey(
    c: &mut [u64; 16384],
    s: &[u8],
    begins: &mut [usize],
    ends: &mut [usize],
    hints: &mut [u8; 4096],
    places: &mut [usize],
) -> Findings
    requires short { Short s.now }
    requires cached { Cached c.old s.now }
    requires unnoted { Unnoted c.old }
    requires sized { Sized begins.old ends.old hints.old }
    requires placed { length places.old ≡ 129 }
    ensures { Surveyed c.new s.now begins.new ends.new places.new result }
{
    let t = source::classes();
    let mut counts = [0usize; 18];
    let mut own = [0u32; 306];
    let mut clean = true;
    let mut n = 0;
    let mut m = 0;
    let mut depth = 0;
    let mut high = 0;
    let mut tally = sums::nothing();
    let mut last = 0;
    let mut at = 0;
    while at < s.len() {
        let next = reader::token_from(&t, s, at);
        let token = next.token;
        match token {
            TokenRead::End => {
                token_cache::store_end(c, s, at);
                return Findings {
                    refusal: scan::verdict(high, depth),
                    names: n,
                    strings: m,
                    clean,
                    totals: tally.totals,
                };
            }
            TokenRead::NoToken => {
                return Findings {
                    refusal: Err(LoadRefusal::NoToken),
                    names: n,
                    strings: m,
                    clean,
                    totals: tally.totals,
                };
            }
            TokenRead::Token(k, begin, end, word) => {
                let j = take(c, s, begins, ends, hints, n, at, k, begin, end, word);
                clean = frames::watch(&mut counts, &mut own, clean, depth, last, k, j);
                n = count_after(n, j);
                m = strings::keep(places, m, at, k);
                high = high.max(depth);
                depth = scan::depth_after(depth, k);
                tally = sums::count(tally, last, k);
                last = k;
                at = next.at;
            }
        }
    }
    Findings {
        refusal: scan::verdict(high, depth),
        names: n,
        strings: m,
        clean,
        totals: tally.totals,
    }
}
