// Number 11: the code in slot start of the frame in slot Main.
#![tactic(auto)]

ghost use Rattle.std.specs.Prelude.{◌≡◌, ◌&&◌};
ghost use Rattle.framed.specs.Common.{same};
ghost use Rattle.source.specs.Positions.{part};
ghost use Rattle.start.specs.Find.{after_kind, opening, find, value, start_value, Leads, HasStart};

use token::TokenRead;
use token_cache::Tokens;

// Where a token of kind k ends.
fn take(tokens: &Tokens, at: usize, k: u32) -> Option<usize>
    ensures { Leads (after_kind k) tokens.now.source.now at result }
{
    let t = tokens.token_at(at);
    let TokenRead::Token(j, _begin, end, _word) = t else {
        return None;
    };
    if j == k {
        return Some(end);
    }
    None
}

// The token is the name of a slot of the frame, and its bytes are these.
fn is_slot(s: &[u8], slot: bool, a: usize, p: usize, name: &[u8]) -> bool
    ensures { result ≡ (slot && same name.now (part s.now a p)) }
{
    slot && lexeme::is_word(name, token::token_bytes(s, a, p))
}

// Where the name of the first slot so named ends, in the frame whose slots begin there.
fn find_slot(tokens: &Tokens, from: usize, name: &[u8]) -> Option<usize>
    ensures { Leads (find name.now 0 0) tokens.now.source.now from result }
{
    let mut depth = 0;
    let mut last = 0;
    let mut at = from;
    while at < tokens.source.len() {
        match tokens.token_at(at) {
            TokenRead::End => {
                return None;
            }
            TokenRead::NoToken => {
                return None;
            }
            TokenRead::Token(k, begin, end, _word) => {
                if slots::closes(depth, k) {
                    return None;
                }
                let slot = slots::names_slot(depth, last, k);
                if is_slot(tokens.source, slot, begin, end, name) {
                    return Some(end);
                }
                depth = scan::depth_after(depth, k);
                last = k;
                at = end;
            }
        }
    }
    None
}

// Where the value of the first slot so named begins.
fn slot_value(tokens: &Tokens, at: usize, name: &[u8]) -> Option<usize>
    ensures { Leads (value name.now) tokens.now.source.now at result }
{
    let p = find_slot(tokens, at, name)?;
    take(tokens, p, 6)
}

// Where the slots of the frame written there begin.
fn frame_slots(tokens: &Tokens, at: usize) -> Option<usize>
    ensures { Leads opening tokens.now.source.now at result }
{
    let p = take(tokens, at, 0)?;
    let q = take(tokens, p, 5)?;
    take(tokens, q, 12)
}

// Where the value of slot start in the frame in slot Main begins.
fn start_value(tokens: &Tokens) -> Option<usize>
    ensures { Leads start_value tokens.now.source.now 0 result }
{
    let p = frame_slots(tokens, 0)?;
    let q = slot_value(tokens, p, b"Main")?;
    let u = frame_slots(tokens, q)?;
    slot_value(tokens, u, b"start")
}

// The program frame has a slot Main with a frame that has a slot start with a code.
pub fn has_start(tokens: &Tokens) -> bool
    ensures { HasStart tokens.now.source.now result }
{
    let Some(p) = start_value(tokens) else {
        return false;
    };
    take(tokens, p, 28).is_some()
}
