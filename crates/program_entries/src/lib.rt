// The tests of single entries of program words: forms, slots, links, with limits and names below. No function here has a `requires`.
#![tactic(auto)]

ghost use Rattle.std.specs.Prelude.{◌≡◌};
ghost use Rattle.program_entries.specs.Tests.{path_ok, link_ok, base_ok, other_name, other_names, slot_ok, slots_ok, frame_ok};
ghost use Rattle.program_entries.specs.Tests.{operate_ok, expression_entry_ok, expression_ok, expressions_ok, assign_ok, ifeq_ok, instruction_entry_ok, instruction_ok};
ghost use Rattle.program_entries.specs.Tests.{instructions_ok, code_ok, codes_ok, tables_ok, entries_ok};

use program_names::{limits_ok, texts_ok};
use tables::{
    ExpressionEntry, InstructionEntry, code_first, codes, expression_at, expression_kind,
    expressions, follow_slot, instruction_at, instruction_link, instructions, link, literals,
    names, number, path_names, program_slots, slot_link, slot_name,
};
use words::wide;

fn path_ok(p: &[u32], j: u32, n: u32) -> bool
    ensures { result ≡ path_ok p.now j n }
{
    wide(j) + wide(n) <= wide(path_names(p))
}

// the link d of entry x reaches one of n entries, or there is none
fn link_ok(n: u32, x: u32, d: u32) -> bool
    ensures { result ≡ link_ok n x d }
{
    (d == 0) | (wide(x) + wide(d) < wide(n))
}

fn base_ok(p: &[u32], e: u32) -> bool
    ensures { result ≡ base_ok p.now e }
{
    (e < expressions(p)) & (expression_kind(p, e) < 5)
}

fn other_name(p: &[u32], n: u32, z: u32) -> bool
    ensures { result ≡ other_name p.now n z }
{
    (z == 0) | (slot_name(p, number(z)) != n)
}

// none of the 16 slots from the place z on has the name n
fn other_names(p: &[u32], n: u32, z: u32) -> bool
    ensures { result ≡ other_names p.now n z }
{
    let mut ok = true;
    let mut y = z;
    for j in 0..16u32 {
        if y == 0 {
            return ok;
        }
        ok &= other_name(p, n, y);
        y = follow_slot(p, y);
    }
    ok
}

fn slot_ok(p: &[u32], z: u32) -> bool
    ensures { result ≡ slot_ok p.now z }
{
    (z == 0)
        | ((z <= expressions(p))
            & (slot_name(p, number(z)) < names(p))
            & link_ok(expressions(p), number(z), slot_link(p, number(z)))
            & other_names(p, slot_name(p, number(z)), follow_slot(p, z)))
}

fn slots_ok(p: &[u32], z: u32) -> bool
    ensures { result ≡ slots_ok p.now z }
{
    let mut ok = true;
    let mut y = z;
    for j in 0..16u32 {
        if y == 0 {
            return ok;
        }
        ok &= slot_ok(p, y);
        y = follow_slot(p, y);
    }
    ok & (y == 0)
}

fn frame_ok(p: &[u32], x: u32, d: u32) -> bool
    ensures { result ≡ frame_ok p.now x d }
{
    link_ok(expressions(p), x, d) & slots_ok(p, link(1024, x, d))
}

fn operate_ok(p: &[u32], e: u32, g: u32) -> bool
    ensures { result ≡ operate_ok p.now e g }
{
    base_ok(p, e) & base_ok(p, g)
}

fn expression_entry_ok(p: &[u32], x: u32, e: ExpressionEntry) -> bool
    ensures { result ≡ expression_entry_ok p.now x e }
{
    match e {
        ExpressionEntry::Integer(_) => true,
        ExpressionEntry::Literal(k) => k < literals(p),
        ExpressionEntry::FromSelf(j, n) | ExpressionEntry::FromProgram(j, n) => path_ok(p, j, n),
        ExpressionEntry::Code(k) => k < codes(p),
        ExpressionEntry::Frame(d) => frame_ok(p, x, d),
        ExpressionEntry::Not(a) => base_ok(p, a),
        ExpressionEntry::Operate(_, a, b) => operate_ok(p, a, b),
        ExpressionEntry::Bad => false,
    }
}

fn expression_ok(p: &[u32], x: u32) -> bool
    ensures { result ≡ expression_ok p.now x }
{
    expression_entry_ok(p, x, expression_at(p, x))
}

fn expressions_ok(p: &[u32]) -> bool
    ensures { result ≡ expressions_ok p.now }
{
    let n = expressions(p);
    let mut ok = true;
    for x in 0..n {
        ok &= expression_ok(p, x);
    }
    ok
}

fn assign_ok(p: &[u32], j: u32, n: u32, e: u32) -> bool
    ensures { result ≡ assign_ok p.now j n e }
{
    path_ok(p, j, n) & (e < expressions(p))
}

fn ifeq_ok(p: &[u32], e: u32, g: u32, u: u32) -> bool
    ensures { result ≡ ifeq_ok p.now e g u }
{
    base_ok(p, e) & base_ok(p, g) & base_ok(p, u)
}

fn instruction_entry_ok(p: &[u32], e: InstructionEntry) -> bool
    ensures { result ≡ instruction_entry_ok p.now e }
{
    match e {
        InstructionEntry::AssignSelf(j, n, a) | InstructionEntry::AssignProgram(j, n, a) => {
            assign_ok(p, j, n, a)
        }
        InstructionEntry::Show(a) => base_ok(p, a),
        InstructionEntry::Jump(a, b) => operate_ok(p, a, b),
        InstructionEntry::Ifeq(a, b, u) => ifeq_ok(p, a, b, u),
        InstructionEntry::Bad => false,
    }
}

fn instruction_ok(p: &[u32], i: u32) -> bool
    ensures { result ≡ instruction_ok p.now i }
{
    instruction_entry_ok(p, instruction_at(p, i))
        & link_ok(instructions(p), i, instruction_link(p, i))
}

fn instructions_ok(p: &[u32]) -> bool
    ensures { result ≡ instructions_ok p.now }
{
    let n = instructions(p);
    let mut ok = true;
    for i in 0..n {
        ok &= instruction_ok(p, i);
    }
    ok
}

fn code_ok(p: &[u32], k: u32) -> bool
    ensures { result ≡ code_ok p.now k }
{
    code_first(p, k) <= instructions(p)
}

fn codes_ok(p: &[u32]) -> bool
    ensures { result ≡ codes_ok p.now }
{
    let n = codes(p);
    let mut ok = true;
    for k in 0..n {
        ok &= code_ok(p, k);
    }
    ok
}

fn tables_ok(p: &[u32], l: &[u8]) -> bool
    ensures { result ≡ tables_ok p.now l.now }
{
    texts_ok(p, l)
        & expressions_ok(p)
        & instructions_ok(p)
        & codes_ok(p)
        & slots_ok(p, program_slots(p))
}

// Does every entry have a form, with every number in it naming an existing entry, and are F, T and the counts within the limits?
pub fn entries_ok(p: &[u32], l: &[u8]) -> bool
    ensures { result ≡ entries_ok p.now l.now }
{
    limits_ok(p) && tables_ok(p, l)
}
