// Program words and literal bytes: each field of docs/LAYOUT.md, read from memories of any length (0 past their end).
// A place is 0 for none, or 1 + a number.
#![tactic(auto)]

ghost use Rattle.std.specs.Prelude.{◌≡◌, ◌-◌};
ghost use Rattle.tables.specs.Entries.{expression_of, expression_at, instruction_of, instruction_at};
ghost use Rattle.tables.specs.Fields.{frame_limit, text_limit, names, literals, expressions, instructions, codes, path_names};
ghost use Rattle.tables.specs.Fields.{program_slots, start, name_length, literal_length, code_first, path_name, instruction_kind, instruction_a};
ghost use Rattle.tables.specs.Fields.{instruction_b, instruction_c, instruction_link, expression_kind, expression_a, expression_b, slot_name, slot_link};
ghost use Rattle.tables.specs.Fields.{name_byte, literal_byte, link, slot_after, follow_slot, instruction_after};

use words::{wide, word};

// F, the frame limit
pub fn frame_limit(p: &[u32]) -> u32
    ensures { result ≡ frame_limit p.now }
{
    word(p, 0)
}

// T, the made text limit
pub fn text_limit(p: &[u32]) -> u32
    ensures { result ≡ text_limit p.now }
{
    word(p, 1)
}

// how many names
pub fn names(p: &[u32]) -> u32
    ensures { result ≡ names p.now }
{
    word(p, 2)
}

// how many string literals
pub fn literals(p: &[u32]) -> u32
    ensures { result ≡ literals p.now }
{
    word(p, 3)
}

// how many expressions
pub fn expressions(p: &[u32]) -> u32
    ensures { result ≡ expressions p.now }
{
    word(p, 4)
}

// how many instructions
pub fn instructions(p: &[u32]) -> u32
    ensures { result ≡ instructions p.now }
{
    word(p, 5)
}

// how many code literals
pub fn codes(p: &[u32]) -> u32
    ensures { result ≡ codes p.now }
{
    word(p, 6)
}

// how many names in resolved paths
pub fn path_names(p: &[u32]) -> u32
    ensures { result ≡ path_names p.now }
{
    word(p, 7)
}

// the place of the first slot of the program frame
pub fn program_slots(p: &[u32]) -> u32
    ensures { result ≡ program_slots p.now }
{
    word(p, 8)
}

// the code of Main.start
pub fn start(p: &[u32]) -> u32
    ensures { result ≡ start p.now }
{
    word(p, 9)
}

// the length of name k
pub fn name_length(p: &[u32], k: u32) -> u32
    ensures { result ≡ name_length p.now k }
{
    word(p, 64 + 17 * wide(k))
}

// the length of literal k
pub fn literal_length(p: &[u32], k: u32) -> u32
    ensures { result ≡ literal_length p.now k }
{
    word(p, 2240 + wide(k))
}

// the place of the first instruction of code k
pub fn code_first(p: &[u32], k: u32) -> u32
    ensures { result ≡ code_first p.now k }
{
    word(p, 2368 + wide(k))
}

// path name j
pub fn path_name(p: &[u32], j: u32) -> u32
    ensures { result ≡ path_name p.now j }
{
    word(p, 2496 + wide(j))
}

// instruction i: its kind, its words a, b, c and the link to the next instruction of its code
pub fn instruction_kind(p: &[u32], i: u32) -> u32
    ensures { result ≡ instruction_kind p.now i }
{
    word(p, 4544 + 5 * wide(i))
}

pub fn instruction_a(p: &[u32], i: u32) -> u32
    ensures { result ≡ instruction_a p.now i }
{
    word(p, 4545 + 5 * wide(i))
}

pub fn instruction_b(p: &[u32], i: u32) -> u32
    ensures { result ≡ instruction_b p.now i }
{
    word(p, 4546 + 5 * wide(i))
}

pub fn instruction_c(p: &[u32], i: u32) -> u32
    ensures { result ≡ instruction_c p.now i }
{
    word(p, 4547 + 5 * wide(i))
}

pub fn instruction_link(p: &[u32], i: u32) -> u32
    ensures { result ≡ instruction_link p.now i }
{
    word(p, 4548 + 5 * wide(i))
}

// expression x: its kind, its words a and b; where it is a slot, its name and the link to the next slot of its frame
pub fn expression_kind(p: &[u32], x: u32) -> u32
    ensures { result ≡ expression_kind p.now x }
{
    word(p, 7104 + 5 * wide(x))
}

pub fn expression_a(p: &[u32], x: u32) -> u32
    ensures { result ≡ expression_a p.now x }
{
    word(p, 7105 + 5 * wide(x))
}

pub fn expression_b(p: &[u32], x: u32) -> u32
    ensures { result ≡ expression_b p.now x }
{
    word(p, 7106 + 5 * wide(x))
}

pub fn slot_name(p: &[u32], x: u32) -> u32
    ensures { result ≡ slot_name p.now x }
{
    word(p, 7107 + 5 * wide(x))
}

pub fn slot_link(p: &[u32], x: u32) -> u32
    ensures { result ≡ slot_link p.now x }
{
    word(p, 7108 + 5 * wide(x))
}

// byte i of name k
pub fn name_byte(p: &[u32], k: u32, i: u32) -> u32
    ensures { result ≡ name_byte p.now k i }
{
    word(p, 65 + 17 * wide(k) + wide(i))
}

// byte i of literal k
pub fn literal_byte(l: &[u8], k: u32, i: u32) -> u8
    ensures { result ≡ literal_byte l.now k i }
{
    word(l, 64 * wide(k) + wide(i))
}

// the place that the link d of entry x reaches in a table of n entries
pub fn link(n: u32, x: u32, d: u32) -> u32
    ensures { result ≡ link n x d }
{
    if d == 0 {
        return 0;
    }
    if wide(n) <= wide(x) + wide(d) {
        return 0;
    }
    1 + x + d
}

// the place of the slot after slot y
pub fn slot_after(p: &[u32], y: u32) -> u32
    ensures { result ≡ slot_after p.now y }
{
    link(1024, y, slot_link(p, y))
}

// the number at the place z; 0 where z is none
pub fn number(z: u32) -> u32
    ensures { result ≡ z - 1 }
{
    z.saturating_sub(1)
}

// the place after the place z along the slots of a frame
pub fn follow_slot(p: &[u32], z: u32) -> u32
    ensures { result ≡ follow_slot p.now z }
{
    if z == 0 {
        return 0;
    }
    slot_after(p, z - 1)
}

// the place of the instruction after instruction i in its code
pub fn instruction_after(p: &[u32], i: u32) -> u32
    ensures { result ≡ instruction_after p.now i }
{
    link(512, i, instruction_link(p, i))
}

// an expression: integer word, literal, path (first name and how many) from self or from the program, code, frame (link to its first slot), `!`,
// operator (its kind, 7 to 15) with two operands; or no form
#[derive(Clone, Copy)]
pub enum ExpressionEntry {
    Integer(u32),
    Literal(u32),
    FromSelf(u32, u32),
    FromProgram(u32, u32),
    Code(u32),
    Frame(u32),
    Not(u32),
    Operate(u32, u32, u32),
    Bad,
}

// an instruction: path `:=` expression from self or from the program, `show`, `jump`, `ifeq`; or no form
#[derive(Clone, Copy)]
pub enum InstructionEntry {
    AssignSelf(u32, u32, u32),
    AssignProgram(u32, u32, u32),
    Show(u32),
    Jump(u32, u32),
    Ifeq(u32, u32, u32),
    Bad,
}

fn expression_of(k: u32, a: u32, b: u32) -> ExpressionEntry
    ensures { result ≡ expression_of k a b }
{
    match k {
        0 => ExpressionEntry::Integer(a),
        1 => ExpressionEntry::Literal(a),
        2 => ExpressionEntry::FromSelf(a, b),
        3 => ExpressionEntry::FromProgram(a, b),
        4 => ExpressionEntry::Code(a),
        5 => ExpressionEntry::Frame(a),
        6 => ExpressionEntry::Not(a),
        7..=15 => ExpressionEntry::Operate(k, a, b),
        _ => ExpressionEntry::Bad,
    }
}

fn instruction_of(k: u32, a: u32, b: u32, c: u32) -> InstructionEntry
    ensures { result ≡ instruction_of k a b c }
{
    match k {
        0 => InstructionEntry::AssignSelf(a, b, c),
        1 => InstructionEntry::AssignProgram(a, b, c),
        2 => InstructionEntry::Show(a),
        3 => InstructionEntry::Jump(a, b),
        4 => InstructionEntry::Ifeq(a, b, c),
        _ => InstructionEntry::Bad,
    }
}

// the entry of expression x; one test for its words where all are there
pub fn expression_at(p: &[u32], x: u32) -> ExpressionEntry
    ensures { result ≡ expression_at p.now x }
{
    let i = 7104 + 5 * wide(x);
    if i + 2 < p.len() {
        return expression_of(p[i], p[i + 1], p[i + 2]);
    }
    expression_of(
        expression_kind(p, x),
        expression_a(p, x),
        expression_b(p, x),
    )
}

// the entry of instruction i, likewise
pub fn instruction_at(p: &[u32], i: u32) -> InstructionEntry
    ensures { result ≡ instruction_at p.now i }
{
    let k = 4544 + 5 * wide(i);
    if k + 3 < p.len() {
        return instruction_of(p[k], p[k + 1], p[k + 2], p[k + 3]);
    }
    instruction_of(
        instruction_kind(p, i),
        instruction_a(p, i),
        instruction_b(p, i),
        instruction_c(p, i),
    )
}
