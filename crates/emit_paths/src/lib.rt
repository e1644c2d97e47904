// The path names of a path of the source, resolved, written into program words.
#![tactic(auto)]

ghost use Rattle.std.specs.Prelude.{◌≡◌};
ghost use Rattle.framed.specs.Symbols.{number_in};
ghost use Rattle.source.specs.Positions.{part};
ghost use Rattle.emit_names.specs.Lent.{table_in};
ghost use Rattle.grammar.specs.Runs.{Sees};
ghost use Rattle.emit_paths.specs.Emits.{Emits, arrived, DottedEmits, UpsRead, HolderDone, UpHere, PathHere, path_emitted};

use emit_names::Emission;
use emit_steps::{Next, Place};
use grammar::Seen;
use token_cache::Tokens;
use words::wide;

// The number of the name that t is, which stands at `at`.
pub fn name_number(e: &Emission, at: usize, t: Seen) -> u32
    requires { Sees e.now.tokens.source.now at t × (t.kind ≡ 25) }
    ensures { result ≡ number_in (table_in e.now) (part e.now.tokens.source.now t.begin t.end) }
{
    e.number_noted(at, t.begin, t.end)
}

// Where names after dots end, and the number of the next path name after them.
#[derive(Clone, Copy)]
pub struct PathEnd {
    pub at: usize,
    pub paths: u32,
}

// The names after dots, as path names from `paths` on.
fn dotted(e: &Emission, p: &mut [u32], from: usize, paths: u32) -> PathEnd
    ensures { DottedEmits e.now.tokens.source.now (table_in e.now) from paths p.old p.new result }
{
    let mut j = paths;
    let mut at = from;
    while at < e.tokens.source.len() {
        let d = grammar::look(&e.tokens, at);
        if d.kind != 7 {
            return PathEnd { at, paths: j };
        }
        let t = grammar::look(&e.tokens, d.end);
        if t.kind != 25 {
            return PathEnd { at, paths: j };
        }
        let k = name_number(e, d.end, t);
        table_updates::set_path_name(p, j, k);
        j = j.saturating_add(1);
        at = t.end;
    }
    PathEnd { at, paths: j }
}

// Where further `^` end, and how many levels of a place they leave.
#[derive(Clone, Copy)]
pub struct Levels {
    pub at: usize,
    pub levels: u32,
}

// Further `^`, each after a dot.
fn ups(tokens: &Tokens, from: usize, depth: u32) -> Levels
    ensures { UpsRead tokens.now.source.now from depth result }
{
    let mut at = from;
    let mut d = depth;
    while at < tokens.source.len() {
        let q = emit_steps::pass_two(tokens, at, 7, 8);
        if q <= at {
            return Levels { at, levels: d };
        }
        d = d.saturating_sub(1);
        at = q;
    }
    Levels { at, levels: d }
}

// The first names of a place, as path names from `paths` on: the number of the next path name after them.
fn holder(p: &mut [u32], place: Place, levels: u32, paths: u32) -> u32
    ensures { HolderDone place.names levels paths p.old p.new result }
{
    let mut j = paths;
    for i in 0..levels {
        if 16 <= i {
            return j;
        }
        table_updates::set_path_name(p, j, place.names[wide(i)]);
        j = j.saturating_add(1);
    }
    j
}

// Emission stands there after a path.
fn arrive(n: Next, d: PathEnd) -> Next
    ensures { result ≡ arrived n d.at d.paths }
{
    Next {
        at: d.at,
        paths: d.paths,
        ..n
    }
}

// A path that begins with `^`, resolved; its first token is t.
fn up_path(e: &Emission, p: &mut [u32], place: Place, n: Next, t: Seen) -> Next
    requires { Sees e.now.tokens.source.now n.at t }
    ensures { Emits (UpHere place) (path_emitted place) e.now.tokens.source.now (table_in e.now) n p.old p.new result }
{
    let u = ups(&e.tokens, t.end, place.depth);
    let m = holder(p, place, u.levels, n.paths);
    let d = dotted(e, p, u.at, m);
    arrive(n, d)
}

// A path, resolved; its first token is t.
pub fn emit_path(e: &Emission, p: &mut [u32], place: Place, n: Next, t: Seen) -> Next
    requires { Sees e.now.tokens.source.now n.at t }
    ensures { Emits (PathHere place) (path_emitted place) e.now.tokens.source.now (table_in e.now) n p.old p.new result }
{
    if t.kind == 1 {
        let d = dotted(e, p, t.end, n.paths);
        return arrive(n, d);
    }
    up_path(e, p, place, n, t)
}
