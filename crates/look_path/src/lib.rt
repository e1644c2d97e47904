// A path text, read in tokens: `self` or one `^`, then any number of dot and name; and what it leads to.
#![tactic(auto)]

ghost use Rattle.std.specs.Prelude.{◌≡◌};
ghost use Rattle.std.proofs.Math.Option.{some};
ghost use Rattle.framed.specs.Bytes.{class};
ghost use Rattle.framed.specs.Tokens.{tokens};
ghost use Rattle.source.specs.Positions.{rest};
ghost use Rattle.heap.specs.Held.{frames_held};
ghost use Rattle.paths.specs.Paths.{fetched};
ghost use Rattle.look_names.specs.Names.{names_held};
ghost use Rattle.look_path.specs.Resolve.{NameAt, DottedAt, dotted_names, named_from, found, along, Resolves};

use framed::Value;
use token::TokenRead;

// What a path text leads to: a value, or that Fetch is undefined; or that the text is not such a path.
#[derive(Clone, Copy)]
pub enum Resolved {
    Found(Value),
    Undefined,
    NotPath,
}

// What stands at a position: nothing more, a dot and a name, or something else. Of the name: where it begins and ends.
#[derive(Clone, Copy)]
pub enum Dotted {
    End,
    Name(usize, usize),
    Other,
}

// The name at a position.
fn name_at(s: &[u8], at: usize) -> Dotted
    ensures { NameAt s.now at result }
{
    let TokenRead::Token(k, a, e, _w) = token::token_at(s, at) else {
        return Dotted::Other;
    };
    if k != 25 {
        return Dotted::Other;
    }
    Dotted::Name(a, e)
}

// The dot and the name at a position.
fn dotted_name(s: &[u8], at: usize) -> Dotted
    ensures { DottedAt s.now at result }
{
    match token::token_at(s, at) {
        TokenRead::End => Dotted::End,
        TokenRead::NoToken => Dotted::Other,
        TokenRead::Token(k, _a, e, _w) => {
            if k != 7 {
                return Dotted::Other;
            }
            name_at(s, e)
        }
    }
}

// One name further, from a value that may be undefined already.
fn go_on(p: &[u32], h: &[u32], v: Option<Value>, w: &[u8]) -> Option<Value>
    ensures { fetched result ≡ named_from (names_held p.now) (frames_held h.now) (fetched v) w.now }
{
    let Some(u) = v else {
        return None;
    };
    paths::get(h, u, look_names::name_number(p, w))
}

fn end_of_path(v: Option<Value>) -> Resolved
    ensures { result ≡ found (fetched v) }
{
    match v {
        Some(u) => Resolved::Found(u),
        None => Resolved::Undefined,
    }
}

// What the dots and names from a position on lead to, from a value.
fn follow(p: &[u32], h: &[u32], s: &[u8], from: usize, root: Value) -> Resolved
    ensures { result ≡ along (frames_held h.now) (some root) (dotted_names (names_held p.now) (tokens class (rest s.now from))) }
{
    let mut v = Some(root);
    let mut at = from;
    while at < s.len() {
        match dotted_name(s, at) {
            Dotted::End => {
                return end_of_path(v);
            }
            Dotted::Other => {
                return Resolved::NotPath;
            }
            Dotted::Name(a, e) => {
                v = go_on(p, h, v, token::token_bytes(s, a, e));
                at = e;
            }
        }
    }
    end_of_path(v)
}

// What the whole text leads to.
pub fn resolve(p: &[u32], h: &[u32], s: &[u8]) -> Resolved
    ensures { Resolves p.now h.now s.now result }
{
    let TokenRead::Token(k, _a, e, _w) = token::token_at(s, 0) else {
        return Resolved::NotPath;
    };
    if k == 1 {
        return follow(p, h, s, e, heap::self_value(h));
    }
    if k == 8 {
        return follow(p, h, s, e, heap::program_value(h));
    }
    Resolved::NotPath
}
