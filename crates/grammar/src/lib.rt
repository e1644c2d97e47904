// The grammar: functions over a source and a position that call each other in a cycle; the unread source length falls. Each finds the next position, or nothing.
#![tactic(auto)]

ghost use Rattle.std.specs.Prelude.{Some};
ghost use Rattle.framed.specs.Parse.{a_base, a_path, an_expression, slots, an_instruction, instructions, names};
ghost use Rattle.grammar.specs.Runs.{Meets, MeetsAll, Reads, ReadsOn, Passes, Expects, KindAt, KindsOk, Sees, OneFrame};
ghost use Rattle.grammar.specs.Readers as R;

use token::TokenRead;
use token_cache::Tokens;

// One token whose kind is lo to hi.
fn expect(tokens: &Tokens, at: usize, lo: u32, hi: u32) -> Option<usize>
    requires { KindsOk lo hi }
    ensures { Expects tokens.now.source.now lo hi at result }
{
    let TokenRead::Token(k, a, p, w) = tokens.token_at(at) else {
        return None;
    };
    if k < lo {
        return None;
    }
    if hi < k {
        return None;
    }
    Some(p)
}

// The kind of the token, 29 where there is none.
pub fn kind_at(tokens: &Tokens, at: usize) -> u32
    ensures { KindAt tokens.now.source.now at result }
{
    let TokenRead::Token(k, a, p, w) = tokens.token_at(at) else {
        return 29;
    };
    k
}

// The token that stands there: its kind, 29 where there is none, the word of an integer, and where it begins and ends.
#[derive(Clone, Copy)]
pub struct Seen {
    pub kind: u32,
    pub word: u32,
    pub begin: usize,
    pub end: usize,
}

pub fn look(tokens: &Tokens, at: usize) -> Seen
    ensures { Sees tokens.now.source.now at result }
{
    let TokenRead::Token(kind, begin, end, word) = tokens.token_at(at) else {
        return Seen {
            kind: 29,
            word: 0,
            begin: at,
            end: at,
        };
    };
    Seen {
        kind,
        word,
        begin,
        end,
    }
}

fn dot_name(tokens: &Tokens, at: usize) -> Option<usize>
    ensures { ReadsOn R.dot_name tokens.now.source.now at result }
{
    let p = expect(tokens, at, 7, 7)?;
    expect(tokens, p, 25, 25)
}

fn dot_up(tokens: &Tokens, at: usize) -> Option<usize>
    ensures { ReadsOn R.dot_up tokens.now.source.now at result }
{
    let p = expect(tokens, at, 7, 7)?;
    expect(tokens, p, 8, 8)
}

// Any number of dot and name: the position after them.
fn names(tokens: &Tokens, at: usize) -> usize
    ensures { Passes names tokens.now.source.now at result }
{
    let mut i = at;
    while let Some(p) = dot_name(tokens, i) {
        i = p;
    }
    i
}

// Further `^`, each after a dot.
fn ups(tokens: &Tokens, at: usize) -> usize
    ensures { Passes R.more_ups tokens.now.source.now at result }
{
    let mut i = at;
    while let Some(p) = dot_up(tokens, i) {
        i = p;
    }
    i
}

// A path whose first token is t.
fn path_from(tokens: &Tokens, at: usize, t: Seen) -> Option<usize>
    requires { Sees tokens.now.source.now at t }
    ensures { Reads a_path tokens.now.source.now at result }
{
    if t.kind == 1 {
        let q = names(tokens, t.end);
        return Some(q);
    }
    if t.kind == 8 {
        let q = ups(tokens, t.end);
        let u = names(tokens, q);
        return Some(u);
    }
    None
}

// A path.
fn path(tokens: &Tokens, at: usize) -> Option<usize>
    ensures { Reads a_path tokens.now.source.now at result }
{
    let t = look(tokens, at);
    path_from(tokens, at, t)
}

// `code` `{` instructions `}`
#[cycle(grammar)]
fn block(tokens: &Tokens, at: usize) -> Option<usize>
    ensures { Meets R.block 0 tokens.now.source.now at result }
{
    let p = expect(tokens, at, 28, 28)?;
    let q = expect(tokens, p, 14, 14)?;
    let u = instructions(tokens, q);
    expect(tokens, u, 15, 15)
}

// A base whose first token is t: integer, string, path or code.
#[cycle(grammar)]
pub fn base_from(tokens: &Tokens, at: usize, t: Seen) -> Option<usize>
    requires { Sees tokens.now.source.now at t }
    ensures { Meets a_base 1 tokens.now.source.now at result }
{
    if t.kind == 28 {
        return block(tokens, at);
    }
    if t.kind < 26 {
        return path_from(tokens, at, t);
    }
    if t.kind < 28 {
        return Some(t.end);
    }
    None
}

// A base.
#[cycle(grammar)]
fn base(tokens: &Tokens, at: usize) -> Option<usize>
    ensures { Meets a_base 1 tokens.now.source.now at result }
{
    let t = look(tokens, at);
    base_from(tokens, at, t)
}

// `!` base
#[cycle(grammar)]
fn negation(tokens: &Tokens, at: usize) -> Option<usize>
    ensures { Meets R.negation 0 tokens.now.source.now at result }
{
    let p = expect(tokens, at, 9, 9)?;
    base(tokens, p)
}

// Operator and base, or nothing: the position after them.
#[cycle(grammar)]
fn operation(tokens: &Tokens, at: usize) -> usize
    ensures { MeetsAll R.operation 0 tokens.now.source.now at (Some result) }
{
    let Some(p) = expect(tokens, at, 16, 24) else {
        return at;
    };
    let Some(q) = base(tokens, p) else {
        return at;
    };
    q
}

// A base, or base operator base.
#[cycle(grammar)]
fn binary(tokens: &Tokens, at: usize) -> Option<usize>
    ensures { Meets R.binary 2 tokens.now.source.now at result }
{
    let p = base(tokens, at)?;
    let q = operation(tokens, p);
    Some(q)
}

// `frame` `:` `[` slots `]`
#[cycle(grammar)]
fn frame(tokens: &Tokens, at: usize) -> Option<usize>
    ensures { Meets R.frame 0 tokens.now.source.now at result }
{
    let p = expect(tokens, at, 0, 0)?;
    let q = expect(tokens, p, 5, 5)?;
    let u = expect(tokens, q, 12, 12)?;
    let v = slots(tokens, u);
    expect(tokens, v, 13, 13)
}

// An expression.
#[cycle(grammar)]
fn expression(tokens: &Tokens, at: usize) -> Option<usize>
    ensures { Meets an_expression 3 tokens.now.source.now at result }
{
    let k = kind_at(tokens, at);
    if k == 0 {
        return frame(tokens, at);
    }
    if k == 9 {
        return negation(tokens, at);
    }
    binary(tokens, at)
}

// Slots, parted by commas: the position after them.
#[cycle(grammar)]
fn slots(tokens: &Tokens, at: usize) -> usize
    ensures { Meets slots 0 tokens.now.source.now at (Some result) }
{
    let mut i = at;
    while let Some(p) = expect(tokens, i, 25, 25) {
        let Some(q) = expect(tokens, p, 6, 6) else {
            return i;
        };
        let Some(u) = expression(tokens, q) else {
            return i;
        };
        let Some(v) = expect(tokens, u, 11, 11) else {
            return u;
        };
        i = v;
    }
    i
}

// `show` base
#[cycle(grammar)]
fn showing(tokens: &Tokens, at: usize) -> Option<usize>
    ensures { Meets R.showing 0 tokens.now.source.now at result }
{
    let p = expect(tokens, at, 2, 2)?;
    base(tokens, p)
}

// `jump` base base
#[cycle(grammar)]
fn jumping(tokens: &Tokens, at: usize) -> Option<usize>
    ensures { Meets R.jumping 0 tokens.now.source.now at result }
{
    let p = expect(tokens, at, 3, 3)?;
    let q = base(tokens, p)?;
    base(tokens, q)
}

// `ifeq` base base base
#[cycle(grammar)]
fn branching(tokens: &Tokens, at: usize) -> Option<usize>
    ensures { Meets R.branching 0 tokens.now.source.now at result }
{
    let p = expect(tokens, at, 4, 4)?;
    let q = base(tokens, p)?;
    let u = base(tokens, q)?;
    base(tokens, u)
}

// path `:=` expression
#[cycle(grammar)]
fn assigning(tokens: &Tokens, at: usize) -> Option<usize>
    ensures { Meets R.assigning 0 tokens.now.source.now at result }
{
    let p = path(tokens, at)?;
    let q = expect(tokens, p, 6, 6)?;
    expression(tokens, q)
}

// An instruction.
#[cycle(grammar)]
fn instruction(tokens: &Tokens, at: usize) -> Option<usize>
    ensures { Meets an_instruction 1 tokens.now.source.now at result }
{
    let k = kind_at(tokens, at);
    if k == 2 {
        return showing(tokens, at);
    }
    if k == 3 {
        return jumping(tokens, at);
    }
    if k == 4 {
        return branching(tokens, at);
    }
    assigning(tokens, at)
}

// Instructions, each closed by `;`: the position after them.
#[cycle(grammar)]
fn instructions(tokens: &Tokens, at: usize) -> usize
    ensures { Meets instructions 2 tokens.now.source.now at (Some result) }
{
    let mut i = at;
    while let Some(p) = instruction(tokens, i) {
        let Some(q) = expect(tokens, p, 10, 10) else {
            return i;
        };
        i = q;
    }
    i
}

// The whole source is one frame.
pub fn one_frame(tokens: &Tokens) -> bool
    ensures { OneFrame tokens.now.source.now result }
{
    let Some(p) = frame(tokens, 0) else {
        return false;
    };
    kind_at(tokens, p) == 29
}
