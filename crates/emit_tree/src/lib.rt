// The tree of a source written as program words: functions over a source and a position that call each other in a cycle, as the readers of `grammar` do.
#![tactic(auto)]

ghost use Rattle.emit_names.specs.Lent.{table_in};
ghost use Rattle.grammar.specs.Runs.{Sees};
ghost use Rattle.emit_paths.specs.Emits.{Emits};
ghost use Rattle.emit_leaves.specs.Parts.{Stands};
ghost use Rattle.emit_tree.specs.Members.{base_emitted, operand_emitted, expression_emitted, right_emitted, slots_emitted, instruction_emitted, code_emitted, BaseHere, BlockHere, ExpressionHere};
ghost use Rattle.emit_tree.specs.Members.{NegationHere, BinaryHere, FrameHere, SlotsHere, SlotEmits, InstructionHere, ShowHere, JumpHere, IfeqHere, AssignHere, CodeHere, LineEmits};
ghost use Rattle.emit_tree.specs.Tree.{TreeEmitted, FirstSlot};

use emit_leaves::Stand;
use emit_names::Emission;
use emit_steps::{Next, Place};
use grammar::Seen;
use tables::{ExpressionEntry, InstructionEntry};
use token_cache::Tokens;

// ---- Bases

// `code` `{` instructions `}`; the first token is t.
#[cycle(tree)]
fn block(e: &Emission, p: &mut [u32], place: Place, x: u32, n: Next, t: Seen) -> Next
    requires { Sees e.now.tokens.source.now n.at t }
    ensures { Emits (BlockHere place) (base_emitted place x) e.now.tokens.source.now (table_in e.now) n p.old p.new result }
{
    let o = emit_leaves::open_block(&e.tokens, p, x, n, t);
    let m = o.next;
    if m.at <= n.at {
        return m;
    }
    let inner = place.within_code();
    let first = o.seen;
    let u = instructions(e, p, inner, m, first);
    emit_leaves::skip(&e.tokens, u, 15)
}

// Integer, string, path or code as expression x; its first token is t.
#[cycle(tree)]
fn base(e: &Emission, p: &mut [u32], place: Place, x: u32, n: Next, t: Seen) -> Next
    requires { Sees e.now.tokens.source.now n.at t }
    ensures { Emits (BaseHere place) (base_emitted place x) e.now.tokens.source.now (table_in e.now) n p.old p.new result }
{
    if t.kind == 28 {
        return block(e, p, place, x, n, t);
    }
    if t.kind < 26 {
        return emit_bases::path_base(e, p, place, x, n, t);
    }
    if t.kind == 26 {
        return emit_leaves::integer(e.tokens.source, p, x, n, t);
    }
    emit_leaves::string(e.tokens.source, p, x, n, t)
}

// A base as the next expression.
#[cycle(tree)]
fn operand(e: &Emission, p: &mut [u32], place: Place, n: Next) -> Next
    ensures { Emits (BaseHere place) (operand_emitted place) e.now.tokens.source.now (table_in e.now) n p.old p.new result }
{
    let x = n.expressions;
    let m = n.one_expression(n.at);
    let t = grammar::look(&e.tokens, m.at);
    base(e, p, place, x, m, t)
}

// ---- Expressions

// `!` base; the first token is t.
#[cycle(tree)]
fn negation(e: &Emission, p: &mut [u32], place: Place, x: u32, n: Next, t: Seen) -> Next
    requires { Sees e.now.tokens.source.now n.at t }
    ensures { Emits (NegationHere place) (expression_emitted place place x) e.now.tokens.source.now (table_in e.now) n p.old p.new result }
{
    let m = n.go_to(t.end);
    table_updates::set_expression(p, x, ExpressionEntry::Not(m.expressions));
    operand(e, p, place, m)
}

// base operator base; the first token is t.
#[cycle(tree)]
fn binary(e: &Emission, p: &mut [u32], place: Place, x: u32, n: Next, t: Seen) -> Next
    requires { Sees e.now.tokens.source.now n.at t }
    ensures { Emits (BinaryHere place) (expression_emitted place place x) e.now.tokens.source.now (table_in e.now) n p.old p.new result }
{
    let a = n.expressions;
    let m = n.one_expression(n.at);
    let u = base(e, p, place, a, m, t);
    let v = emit_leaves::operator(&e.tokens, p, x, a, u);
    operand(e, p, place, v)
}

// `frame` `:` `[` slots `]`; the first token is t.
#[cycle(tree)]
fn frame(e: &Emission, p: &mut [u32], inner: Place, x: u32, n: Next, t: Seen) -> Next
    requires { Sees e.now.tokens.source.now n.at t }
    ensures { Emits (FrameHere inner) (expression_emitted inner inner x) e.now.tokens.source.now (table_in e.now) n p.old p.new result }
{
    let o = emit_leaves::open_frame(&e.tokens, p, x, n, t);
    let m = o.next;
    if m.at <= n.at {
        return m;
    }
    let first = o.seen;
    let u = slots(e, p, inner, m, first);
    emit_leaves::skip(&e.tokens, u, 13)
}

// An expression as expression x, whose first token is t; `inner` is the place of what is written in a frame that it is. Outside code
// it is no operation.
#[cycle(tree)]
fn expression(
    e: &Emission,
    p: &mut [u32],
    place: Place,
    inner: Place,
    x: u32,
    n: Next,
    t: Seen,
) -> Next
    requires { Sees e.now.tokens.source.now n.at t }
    ensures { Emits (ExpressionHere place inner) (expression_emitted place inner x) e.now.tokens.source.now (table_in e.now) n p.old p.new result }
{
    if t.kind == 0 {
        return frame(e, p, inner, x, n, t);
    }
    if t.kind == 9 {
        return negation(e, p, place, x, n, t);
    }
    if place.in_code {
        if emit_leaves::operator_after(&e.tokens, n.at, t) {
            return binary(e, p, place, x, n, t);
        }
    }
    base(e, p, place, x, n, t)
}

// An expression as the next expression.
#[cycle(tree)]
fn right(e: &Emission, p: &mut [u32], place: Place, inner: Place, n: Next) -> Next
    ensures { Emits (ExpressionHere place inner) (right_emitted place inner) e.now.tokens.source.now (table_in e.now) n p.old p.new result }
{
    let x = n.expressions;
    let m = n.one_expression(n.at);
    let t = grammar::look(&e.tokens, m.at);
    expression(e, p, place, inner, x, m, t)
}

// ---- Slots

// One slot, whose name is the token t and whose expression begins at q.
#[cycle(tree)]
fn slot(e: &Emission, p: &mut [u32], place: Place, n: Next, q: usize, t: Seen) -> Stand
    requires { Sees e.now.tokens.source.now n.at t }
    ensures { Stands e.now.tokens.source.now (SlotEmits place e.now.tokens.source.now (table_in e.now) n q p.old p.new) result }
{
    let k = emit_leaves::name_slot(e, p, n, t);
    let inner = place.within_slot(k);
    let m = n.go_to(q);
    let u = right(e, p, place, inner, m);
    emit_leaves::close_slot(&e.tokens, p, n.expressions, u)
}

// Slots, parted by commas; the first token is `first`.
#[cycle(tree)]
fn slots(e: &Emission, p: &mut [u32], place: Place, n: Next, first: Seen) -> Next
    requires { Sees e.now.tokens.source.now n.at first }
    ensures { Emits (SlotsHere place) (slots_emitted place) e.now.tokens.source.now (table_in e.now) n p.old p.new result }
{
    let mut m = n;
    let mut t = first;
    while m.at < e.tokens.source.len() {
        if t.kind != 25 {
            return m;
        }
        let q = emit_steps::pass(&e.tokens, t.end, 6);
        if q <= t.end {
            return m;
        }
        let r = slot(e, p, place, m, q, t);
        m = r.next;
        t = r.seen;
    }
    m
}

// ---- Instructions

// `show` base; the first token is t.
#[cycle(tree)]
fn showing(e: &Emission, p: &mut [u32], place: Place, i: u32, n: Next, t: Seen) -> Next
    requires { Sees e.now.tokens.source.now n.at t }
    ensures { Emits (ShowHere place) (instruction_emitted place i) e.now.tokens.source.now (table_in e.now) n p.old p.new result }
{
    let m = n.go_to(t.end);
    table_updates::set_instruction(p, i, InstructionEntry::Show(m.expressions));
    operand(e, p, place, m)
}

// `jump` base base; the first token is t.
#[cycle(tree)]
fn jumping(e: &Emission, p: &mut [u32], place: Place, i: u32, n: Next, t: Seen) -> Next
    requires { Sees e.now.tokens.source.now n.at t }
    ensures { Emits (JumpHere place) (instruction_emitted place i) e.now.tokens.source.now (table_in e.now) n p.old p.new result }
{
    let m = n.go_to(t.end);
    let u = operand(e, p, place, m);
    table_updates::set_instruction(p, i, InstructionEntry::Jump(m.expressions, u.expressions));
    operand(e, p, place, u)
}

// `ifeq` base base base; the first token is t.
#[cycle(tree)]
fn branching(e: &Emission, p: &mut [u32], place: Place, i: u32, n: Next, t: Seen) -> Next
    requires { Sees e.now.tokens.source.now n.at t }
    ensures { Emits (IfeqHere place) (instruction_emitted place i) e.now.tokens.source.now (table_in e.now) n p.old p.new result }
{
    let m = n.go_to(t.end);
    let u = operand(e, p, place, m);
    let v = operand(e, p, place, u);
    let entry = InstructionEntry::Ifeq(m.expressions, u.expressions, v.expressions);
    table_updates::set_instruction(p, i, entry);
    operand(e, p, place, v)
}

// path `:=` expression; the first token is t.
#[cycle(tree)]
fn assigning(e: &Emission, p: &mut [u32], place: Place, i: u32, n: Next, t: Seen) -> Next
    requires { Sees e.now.tokens.source.now n.at t }
    ensures { Emits (AssignHere place) (instruction_emitted place i) e.now.tokens.source.now (table_in e.now) n p.old p.new result }
{
    let u = emit_leaves::assign_target(e, p, place, i, n, t);
    right(e, p, place, place, u)
}

// An instruction as instruction i; its first token is t.
#[cycle(tree)]
fn instruction(e: &Emission, p: &mut [u32], place: Place, i: u32, n: Next, t: Seen) -> Next
    requires { Sees e.now.tokens.source.now n.at t }
    ensures { Emits (InstructionHere place) (instruction_emitted place i) e.now.tokens.source.now (table_in e.now) n p.old p.new result }
{
    if t.kind == 2 {
        return showing(e, p, place, i, n, t);
    }
    if t.kind == 3 {
        return jumping(e, p, place, i, n, t);
    }
    if t.kind == 4 {
        return branching(e, p, place, i, n, t);
    }
    assigning(e, p, place, i, n, t)
}

// One instruction with its `;`; its first token is t.
#[cycle(tree)]
fn line(e: &Emission, p: &mut [u32], place: Place, n: Next, t: Seen) -> Stand
    requires { Sees e.now.tokens.source.now n.at t }
    ensures { Stands e.now.tokens.source.now (LineEmits place e.now.tokens.source.now (table_in e.now) n p.old p.new) result }
{
    let i = n.instructions;
    let m = n.one_instruction();
    let u = instruction(e, p, place, i, m, t);
    emit_leaves::close_line(&e.tokens, p, i, u)
}

// Instructions, each closed by `;`, up to `}`; the first token is `first`.
#[cycle(tree)]
fn instructions(e: &Emission, p: &mut [u32], place: Place, n: Next, first: Seen) -> Next
    requires { Sees e.now.tokens.source.now n.at first }
    ensures { Emits (CodeHere place) (code_emitted place) e.now.tokens.source.now (table_in e.now) n p.old p.new result }
{
    let mut m = n;
    let mut t = first;
    while m.at < e.tokens.source.len() {
        if t.kind == 15 {
            return m;
        }
        let at = m.at;
        let r = line(e, p, place, m, t);
        m = r.next;
        t = r.seen;
        if m.at <= at {
            return m;
        }
    }
    m
}

// ---- The tree

// The slots of the program frame: the numbers after the tree.
pub fn emit_tree(e: &Emission, p: &mut [u32]) -> Next
    ensures { TreeEmitted e.now.tokens.source.now e.now.names.begins.now e.now.names.ends.now e.now.names.count p.old p.new result }
{
    let q = emit_steps::pass_frame(&e.tokens, 0);
    let place = Place {
        in_code: false,
        depth: 0,
        names: [0; 16],
    };
    let n = Next {
        at: q,
        expressions: 0,
        instructions: 0,
        paths: 0,
        strings: 0,
        codes: 0,
    };
    let first = grammar::look(&e.tokens, q);
    slots(e, p, place, n, first)
}

// The place of the first slot of the program frame.
pub fn first_slot_place(tokens: &Tokens) -> u32
    ensures { FirstSlot tokens.now.source.now result }
{
    let q = emit_steps::pass_frame(tokens, 0);
    let k = grammar::kind_at(tokens, q);
    if k == 25 {
        return 1;
    }
    0
}
