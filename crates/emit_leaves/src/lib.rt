// The leaves of the tree and where its parts begin and end, written into program words: what the cycle of `emit_tree` calls.
#![tactic(auto)]

ghost use Rattle.std.specs.Prelude.{◌≡◌};
ghost use Rattle.emit_names.specs.Lent.{table_in};
ghost use Rattle.emit_names.specs.Table.{NumberAt};
ghost use Rattle.grammar.specs.Runs.{Sees};
ghost use Rattle.emit_paths.specs.Emits.{Emits};
ghost use Rattle.emit_leaves.specs.Parts.{place_by, line_link_by, slot_link_by, assign_by, EmitsAny, IntegerHere, StringHere, OperatorHere, integer_emitted, string_emitted, operator_emitted};
ghost use Rattle.emit_leaves.specs.Parts.{OperatorAfter, Skipped, TargetHere, target_emitted, Stands, BlockOpened, FrameOpened, SlotNamed, SlotClosed, LineClosed};

use emit_names::Emission;
use emit_steps::{Next, Place};
use grammar::Seen;
use tables::{ExpressionEntry, InstructionEntry};
use token_cache::Tokens;

// Where emission stands, and the token there.
#[derive(Clone, Copy)]
pub struct Stand {
    pub next: Next,
    pub seen: Seen,
}

// ---- By the kind of the token that follows

// The place of the first instruction of a code whose next token has kind k, where the next instruction is i.
fn first_place(k: u32, i: u32) -> u32
    ensures { result ≡ place_by k i }
{
    if k == 15 {
        return 0;
    }
    i.saturating_add(1)
}

// The link from instruction i to the next one, z, where the next token has kind k.
fn line_link(k: u32, i: u32, z: u32) -> u32
    ensures { result ≡ line_link_by k i z }
{
    if k == 15 {
        return 0;
    }
    z.saturating_sub(i)
}

// The link from y to the next slot, z, where the next token has kind k.
fn slot_link(k: u32, y: u32, z: u32) -> u32
    ensures { result ≡ slot_link_by k y z }
{
    if k == 25 {
        return z.saturating_sub(y);
    }
    0
}

// The entry of an assignment to a path whose first token has kind k.
fn assign_entry(k: u32, j: u32, length: u32, e: u32) -> InstructionEntry
    ensures { result ≡ assign_by k j length e }
{
    if k == 1 {
        return InstructionEntry::AssignSelf(j, length, e);
    }
    InstructionEntry::AssignProgram(j, length, e)
}

// ---- One token

// An integer, the token t, as expression x.
pub fn integer(s: &[u8], p: &mut [u32], x: u32, n: Next, t: Seen) -> Next
    requires { Sees s.now n.at t }
    ensures { EmitsAny IntegerHere (integer_emitted x) s.now n p.old p.new result }
{
    table_updates::set_expression(p, x, ExpressionEntry::Integer(t.word));
    n.go_to(t.end)
}

// A string, the token t, as expression x.
pub fn string(s: &[u8], p: &mut [u32], x: u32, n: Next, t: Seen) -> Next
    requires { Sees s.now n.at t }
    ensures { EmitsAny StringHere (string_emitted x) s.now n p.old p.new result }
{
    table_updates::set_expression(p, x, ExpressionEntry::Literal(n.strings));
    n.one_string(t.end)
}

// An operator as expression x, whose operands are a and the next expression.
pub fn operator(tokens: &Tokens, p: &mut [u32], x: u32, a: u32, n: Next) -> Next
    ensures { EmitsAny OperatorHere (operator_emitted x a) tokens.now.source.now n p.old p.new result }
{
    let t = grammar::look(tokens, n.at);
    let j = t.kind.saturating_sub(9);
    table_updates::set_expression(p, x, ExpressionEntry::Operate(j, a, n.expressions));
    n.go_to(t.end)
}

// An operator follows the base that begins there with the token t.
pub fn operator_after(tokens: &Tokens, at: usize, t: Seen) -> bool
    requires { Sees tokens.now.source.now at t }
    ensures { OperatorAfter tokens.now.source.now at result }
{
    let Some(p) = grammar::base_from(tokens, at, t) else {
        return false;
    };
    let k = grammar::kind_at(tokens, p);
    16 <= k && k <= 24
}

// A token of kind k is passed.
pub fn skip(tokens: &Tokens, n: Next, k: u32) -> Next
    ensures { Skipped tokens.now.source.now n k result }
{
    let q = emit_steps::pass(tokens, n.at, k);
    n.go_to(q)
}

// ---- The path of an assignment

// Path and `:=` of instruction i; its first token is t.
pub fn assign_target(e: &Emission, p: &mut [u32], place: Place, i: u32, n: Next, t: Seen) -> Next
    requires { Sees e.now.tokens.source.now n.at t }
    ensures { Emits (TargetHere place) (target_emitted place i) e.now.tokens.source.now (table_in e.now) n p.old p.new result }
{
    let u = emit_paths::emit_path(e, p, place, n, t);
    let d = u.paths.saturating_sub(n.paths);
    let entry = assign_entry(t.kind, n.paths, d, u.expressions);
    table_updates::set_instruction(p, i, entry);
    skip(&e.tokens, u, 6)
}

// ---- Where a code or a frame begins

// `code`, the token t, and `{` of expression x.
pub fn open_block(tokens: &Tokens, p: &mut [u32], x: u32, n: Next, t: Seen) -> Stand
    requires { Sees tokens.now.source.now n.at t }
    ensures { Stands tokens.now.source.now (BlockOpened tokens.now.source.now x n p.old p.new) result }
{
    let q = emit_steps::pass(tokens, t.end, 14);
    let u = grammar::look(tokens, q);
    let f = first_place(u.kind, n.instructions);
    table_updates::set_code_first(p, n.codes, f);
    table_updates::set_expression(p, x, ExpressionEntry::Code(n.codes));
    let m = n.one_code(q);
    Stand { next: m, seen: u }
}

// `frame`, the token t, and `:` `[` of expression x.
pub fn open_frame(tokens: &Tokens, p: &mut [u32], x: u32, n: Next, t: Seen) -> Stand
    requires { Sees tokens.now.source.now n.at t }
    ensures { Stands tokens.now.source.now (FrameOpened tokens.now.source.now x n p.old p.new) result }
{
    if tokens.source.len() <= n.at {
        return Stand { next: n, seen: t };
    }
    let q = emit_steps::pass_two(tokens, t.end, 5, 12);
    let u = grammar::look(tokens, q);
    let d = slot_link(u.kind, x, n.expressions);
    table_updates::set_expression(p, x, ExpressionEntry::Frame(d));
    let m = n.go_to(q);
    Stand { next: m, seen: u }
}

// ---- Slots and instructions

// The number of the name that stands at `at`, the token t; where t is no name, the number of none.
fn number_here(e: &Emission, at: usize, t: Seen) -> u32
    requires { Sees e.now.tokens.source.now at t }
    ensures { NumberAt e.now.tokens.source.now e.now.names.begins.now e.now.names.ends.now e.now.names.count at result }
{
    if t.kind != 25 {
        return e.names.count;
    }
    emit_paths::name_number(e, at, t)
}

// The name that stands there, the token t, as slot name of the next expression: its number.
pub fn name_slot(e: &Emission, p: &mut [u32], n: Next, t: Seen) -> u32
    requires { Sees e.now.tokens.source.now n.at t }
    ensures { SlotNamed e.now.tokens.source.now e.now.names.begins.now e.now.names.ends.now e.now.names.count n p.old p.new result }
{
    let k = number_here(e, n.at, t);
    table_updates::set_slot_name(p, n.expressions, k);
    k
}

// The end of slot y, with its comma where there is one: its link.
pub fn close_slot(tokens: &Tokens, p: &mut [u32], y: u32, u: Next) -> Stand
    ensures { Stands tokens.now.source.now (SlotClosed tokens.now.source.now y u p.old p.new) result }
{
    let m = skip(tokens, u, 11);
    let t = grammar::look(tokens, m.at);
    let d = slot_link(t.kind, y, u.expressions);
    table_updates::set_slot_link(p, y, d);
    Stand { next: m, seen: t }
}

// The end of instruction i, with its `;`: its link.
pub fn close_line(tokens: &Tokens, p: &mut [u32], i: u32, u: Next) -> Stand
    ensures { Stands tokens.now.source.now (LineClosed tokens.now.source.now i u p.old p.new) result }
{
    let m = skip(tokens, u, 10);
    let t = grammar::look(tokens, m.at);
    let d = line_link(t.kind, i, u.instructions);
    table_updates::set_instruction_link(p, i, d);
    Stand { next: m, seen: t }
}
