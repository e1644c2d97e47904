// Decides what document 01 asks of parts and wholes in program words: every entry is held to the arrays of marks of `program_marks`.
// No function here has a `requires`.
#![tactic(auto)]

ghost use Rattle.std.specs.Prelude.{◌≡◌};
ghost use Rattle.program_parts.specs.Tests.{part_ok, slot_marked, slots_marked, code_ok, both_parts_ok, parts_marked, expression_marked_as, expressions_marked};
ghost use Rattle.program_parts.specs.Tests.{operand_ok, operands_marked, stands_ok, instruction_marked_as, instructions_marked, code_marked_as, codes_marked};
ghost use Rattle.program_parts.specs.Tests.{marks_ok, parts_ok};

use program_marks::Marks;
use tables::{
    ExpressionEntry, InstructionEntry, code_first, codes, expression_at, expressions, follow_slot,
    instruction_after, instruction_at, instructions, link,
};
use words::{wide, word};

// a, a part of expression x, has the mark w = 1 + x and no other
fn part_ok(m: &Marks, x: u32, w: u32, a: u32) -> bool
    ensures { result ≡ part_ok m.now.expression_wholes m.now.instruction_wholes x w a }
{
    (x < a)
        & (word(&m.expression_wholes, 1 + wide(a)) == w)
        & (word(&m.instruction_wholes, 1 + wide(a)) == 0)
}

fn slot_marked(m: &Marks, w: u32, z: u32) -> bool
    ensures { result ≡ slot_marked m.now.expression_wholes m.now.instruction_wholes w z }
{
    (z == 0)
        | ((word(&m.expression_wholes, wide(z)) == w) & (word(&m.instruction_wholes, wide(z)) == 0))
}

fn slots_marked(p: &[u32], m: &Marks, w: u32, z: u32) -> bool
    ensures { result ≡ slots_marked p.now m.now.expression_wholes m.now.instruction_wholes w z }
{
    let mut ok = true;
    let mut y = z;
    for j in 0..16u32 {
        if y == 0 {
            return ok;
        }
        ok &= slot_marked(m, w, y);
        y = follow_slot(p, y);
    }
    ok
}

// the code k in expression x (w = 1 + x) is named there, and is larger than the code in which x is written
fn code_ok(m: &Marks, w: u32, k: u32) -> bool
    ensures { result ≡ code_ok m.now.code_names m.now.homes w k }
{
    (word(&m.code_names, 1 + wide(k)) == w) & (word(&m.homes, wide(w)) <= k)
}

fn both_parts_ok(m: &Marks, x: u32, w: u32, a: u32, b: u32) -> bool
    ensures { result ≡ both_parts_ok m.now.expression_wholes m.now.instruction_wholes x w a b }
{
    part_ok(m, x, w, a) & part_ok(m, x, w, b)
}

fn parts_marked(p: &[u32], m: &Marks, x: u32, w: u32, e: ExpressionEntry) -> bool
    ensures { result ≡ parts_marked p.now m.now.expression_wholes m.now.instruction_wholes m.now.code_names m.now.homes x w e }
{
    match e {
        ExpressionEntry::Code(k) => code_ok(m, w, k),
        ExpressionEntry::Frame(d) => slots_marked(p, m, w, link(1024, x, d)),
        ExpressionEntry::Not(a) => part_ok(m, x, w, a),
        ExpressionEntry::Operate(_, a, b) => both_parts_ok(m, x, w, a, b),
        _ => true,
    }
}

fn expression_marked(p: &[u32], m: &Marks, x: u32, w: u32) -> bool
    ensures { result ≡ expression_marked_as p.now m.now.expression_wholes m.now.instruction_wholes m.now.code_names m.now.homes x w }
{
    parts_marked(p, m, x, w, expression_at(p, x))
}

fn expressions_marked(p: &[u32], m: &Marks) -> bool
    ensures { result ≡ expressions_marked p.now m.now.expression_wholes m.now.instruction_wholes m.now.code_names m.now.homes }
{
    let t = expressions(p);
    let mut ok = true;
    for x in 0..t {
        ok &= expression_marked(p, m, x, 1 + x);
    }
    ok
}

// a, a part of an instruction, has its mark w and no other
fn operand_ok(m: &Marks, w: u32, a: u32) -> bool
    ensures { result ≡ operand_ok m.now.expression_wholes m.now.instruction_wholes w a }
{
    (word(&m.instruction_wholes, 1 + wide(a)) == w) & (word(&m.expression_wholes, 1 + wide(a)) == 0)
}

fn operands_marked(m: &Marks, w: u32, e: InstructionEntry) -> bool
    ensures { result ≡ operands_marked m.now.expression_wholes m.now.instruction_wholes w e }
{
    match e {
        InstructionEntry::AssignSelf(_, _, a)
        | InstructionEntry::AssignProgram(_, _, a)
        | InstructionEntry::Show(a) => operand_ok(m, w, a),
        InstructionEntry::Jump(a, b) => operand_ok(m, w, a) & operand_ok(m, w, b),
        InstructionEntry::Ifeq(a, b, u) => operand_ok(m, w, a)
            & operand_ok(m, w, b)
            & operand_ok(m, w, u),
        InstructionEntry::Bad => true,
    }
}

// instruction i stands in a code, and the next one in the same
fn stands_ok(p: &[u32], m: &Marks, i: u32) -> bool
    ensures { result ≡ stands_ok p.now m.now.instruction_codes i }
{
    (word(&m.instruction_codes, 1 + wide(i)) != 0)
        & ((instruction_after(p, i) == 0)
            | (word(&m.instruction_codes, wide(instruction_after(p, i)))
                == word(&m.instruction_codes, 1 + wide(i))))
}

fn instruction_marked(p: &[u32], m: &Marks, i: u32, w: u32) -> bool
    ensures { result ≡ instruction_marked_as p.now m.now.expression_wholes m.now.instruction_wholes m.now.instruction_codes i w }
{
    operands_marked(m, w, instruction_at(p, i)) & stands_ok(p, m, i)
}

fn instructions_marked(p: &[u32], m: &Marks) -> bool
    ensures { result ≡ instructions_marked p.now m.now.expression_wholes m.now.instruction_wholes m.now.instruction_codes }
{
    let t = instructions(p);
    let mut ok = true;
    for i in 0..t {
        ok &= instruction_marked(p, m, i, 1 + i);
    }
    ok
}

// the first instruction of code k (w = 1 + k) stands in code k, and code k is named
fn code_marked(p: &[u32], m: &Marks, k: u32, w: u32) -> bool
    ensures { result ≡ code_marked_as p.now m.now.instruction_codes m.now.code_names k w }
{
    ((code_first(p, k) == 0) | (word(&m.instruction_codes, wide(code_first(p, k))) == w))
        & (word(&m.code_names, 1 + wide(k)) != 0)
}

fn codes_marked(p: &[u32], m: &Marks) -> bool
    ensures { result ≡ codes_marked p.now m.now.instruction_codes m.now.code_names }
{
    let t = codes(p);
    let mut ok = true;
    for k in 0..t {
        ok &= code_marked(p, m, k, 1 + k);
    }
    ok
}

fn marks_ok(p: &[u32], m: &Marks) -> bool
    ensures { result ≡ marks_ok p.now m.now.expression_wholes m.now.instruction_wholes m.now.instruction_codes m.now.code_names m.now.homes }
{
    expressions_marked(p, m) & instructions_marked(p, m) & codes_marked(p, m)
}

// Is each expression part of at most one whole before it, does each instruction stand in one code, each code in one expression, with only larger codes inside?
pub fn parts_ok(p: &[u32]) -> bool
    ensures { result ≡ parts_ok p.now }
{
    let mut m = Marks {
        expression_wholes: [0; 1025],
        instruction_wholes: [0; 1025],
        instruction_codes: [0; 513],
        code_names: [0; 129],
        homes: [0; 1025],
    };
    m.fill(p);
    marks_ok(p, &m)
}
