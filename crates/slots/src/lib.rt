// The slots of a frame in a source, and number 8: a frame has a name twice or more than 16 slots.
#![tactic(auto)]

ghost use Rattle.std.specs.Prelude.{◌≡◌, ◌&&◌};
ghost use Rattle.framed.specs.Common.{any, same};
ghost use Rattle.source.specs.Positions.{part};
ghost use Rattle.scan.specs.Scan.{NotHuge};
ghost use Rattle.sweep.specs.Decides.{Decides};
ghost use Rattle.names.specs.Kept.{table_of};
ghost use Rattle.slots.specs.Own.{closes, names_slot, plain, Added, bad_tree};
ghost use Rattle.slots.specs.Checks.{clear_after, Checks, Opens};

use token::TokenRead;
use token_cache::Tokens;

// A token of kind k closes the frame.
#[tactic(auto, unfolding(crate::specs::Own::closes))]
pub fn closes(depth: usize, k: u32) -> bool
    ensures { result ≡ closes depth k }
{
    (k == 13 || k == 15) && depth == 0
}

// A token of kind k, after one of kind `last`, is the name of a slot of the frame.
#[tactic(auto, unfolding(crate::specs::Own::names_slot))]
pub fn names_slot(depth: usize, last: u32, k: u32) -> bool
    ensures { result ≡ names_slot depth last k }
{
    k == 25 && last != 7 && depth == 0
}

// A token of kind k is neither a bracket nor a name.
#[tactic(auto, unfolding(crate::specs::Own::plain))]
fn plain(k: u32) -> bool
    ensures { result ≡ plain k }
{
    k < 12 || (16 <= k && k != 25)
}

// A slot's name, from a up to p, is one of the n names kept.
fn repeated(
    s: &[u8],
    begins: &[usize],
    ends: &[usize],
    n: usize,
    slot: bool,
    a: usize,
    p: usize,
) -> bool
    ensures { result ≡ (slot && any (same (part s.now a p)) (table_of s.now begins.now ends.now n)) }
{
    slot && names::known(s, begins, ends, n, a, p)
}

// Keeps a slot's name: how many are kept after it.
fn add_slot(
    begins: &mut [usize],
    ends: &mut [usize],
    n: usize,
    slot: bool,
    a: usize,
    p: usize,
) -> usize
    requires { NotHuge n }
    ensures { Added begins.old ends.old n slot a p begins.new ends.new result }
{
    if slot {
        names::set_place(begins, n, a);
        names::set_place(ends, n, p);
        return n + 1;
    }
    n
}

// What is known of a frame: whether it has a name twice or more than 16 slots, and a position before which no frame begins in it.
#[derive(Clone, Copy)]
pub struct Checked {
    pub bad: bool,
    pub clear: usize,
}

// No frame begins before `clear`: how far that holds after a token of kind k from `at` to `end`.
fn clear_after(clear: usize, at: usize, k: u32, end: usize) -> usize
    ensures { result ≡ clear_after clear at k end }
{
    if clear != at {
        return clear;
    }
    if k == 12 {
        return clear;
    }
    end
}

// The frame whose slots begin there.
fn bad_slots(tokens: &Tokens, from: usize) -> Checked
    ensures { Checks tokens.now.source.now from result }
{
    let s = tokens.source;
    let mut begins = [0usize; 17];
    let mut ends = [0usize; 17];
    let mut n = 0;
    let mut depth = 0;
    let mut last = 0;
    let mut clear = from;
    let mut at = from;
    while at < s.len() {
        match tokens.token_at(at) {
            TokenRead::End => {
                return Checked { bad: false, clear };
            }
            TokenRead::NoToken => {
                return Checked { bad: false, clear };
            }
            TokenRead::Token(k, begin, end, _word) => {
                if plain(k) {
                    clear = clear_after(clear, at, k, end);
                    last = k;
                    at = end;
                    continue;
                }
                if closes(depth, k) {
                    return Checked { bad: false, clear };
                }
                let slot = names_slot(depth, last, k);
                if repeated(s, &begins, &ends, n, slot, begin, end) {
                    return Checked { bad: true, clear };
                }
                n = add_slot(&mut begins, &mut ends, n, slot, begin, end);
                if 16 < n {
                    return Checked { bad: true, clear };
                }
                clear = clear_after(clear, at, k, end);
                depth = scan::depth_after(depth, k);
                last = k;
                at = end;
            }
        }
    }
    Checked { bad: false, clear }
}

// A token of kind k opens such a frame; where it opens none, no frame begins before its end.
fn opens_bad(tokens: &Tokens, k: u32, end: usize) -> Checked
    ensures { Opens tokens.now.source.now k end result }
{
    if k == 12 {
        return bad_slots(tokens, end);
    }
    Checked {
        bad: false,
        clear: end,
    }
}

// Some frame has a name twice or more than 16 slots.
pub fn bad_frame(tokens: &Tokens) -> bool
    ensures { Decides bad_tree tokens.now.source.now result }
{
    let mut at = 0;
    while at < tokens.source.len() {
        match tokens.token_at(at) {
            TokenRead::End => {
                return false;
            }
            TokenRead::NoToken => {
                return false;
            }
            TokenRead::Token(k, _begin, end, _word) => {
                let r = opens_bad(tokens, k, end);
                if r.bad {
                    return true;
                }
                at = r.clear;
            }
        }
    }
    false
}
