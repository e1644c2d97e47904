// Bases without code, written as expressions: a path.
#![tactic(auto)]

ghost use Rattle.std.specs.Prelude.{◌≡◌};
ghost use Rattle.emit_names.specs.Lent.{table_in};
ghost use Rattle.grammar.specs.Runs.{Sees};
ghost use Rattle.emit_paths.specs.Emits.{Emits, PathHere};
ghost use Rattle.emit_bases.specs.Bases.{kind_entry, path_base};

use emit_names::Emission;
use emit_steps::{Next, Place};
use grammar::Seen;
use tables::ExpressionEntry;

// The entry of a path whose first token has kind k.
fn path_entry(k: u32, j: u32, length: u32) -> ExpressionEntry
    ensures { result ≡ kind_entry k j length }
{
    if k == 1 {
        return ExpressionEntry::FromSelf(j, length);
    }
    ExpressionEntry::FromProgram(j, length)
}

// A path as expression x; its first token is t.
pub fn path_base(e: &Emission, p: &mut [u32], place: Place, x: u32, n: Next, t: Seen) -> Next
    requires { Sees e.now.tokens.source.now n.at t }
    ensures { Emits (PathHere place) (path_base place x) e.now.tokens.source.now (table_in e.now) n p.old p.new result }
{
    let m = emit_paths::emit_path(e, p, place, n, t);
    let d = m.paths.saturating_sub(n.paths);
    let entry = path_entry(t.kind, n.paths, d);
    table_updates::set_expression(p, x, entry);
    m
}
