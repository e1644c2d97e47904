// Program words and literal bytes: each field of docs/LAYOUT.md, written. Past the memory's end nothing is written.
#![tactic(auto)]

ghost use Rattle.std.specs.Prelude.{◌≡◌, [], ◌∷◌};
ghost use Rattle.table_updates.specs.Encode.{expression_kind_of, expression_a_of, expression_b_of, instruction_kind_of, instruction_a_of, instruction_b_of, instruction_c_of};
ghost use Rattle.table_updates.specs.Updates.{set_frame_limit, set_text_limit, set_names, set_literals, set_expressions, set_instructions, set_codes, set_path_names};
ghost use Rattle.table_updates.specs.Updates.{set_program_slots, set_start, set_name_length, set_literal_length, set_code_first, set_path_name, set_instruction_link, set_slot_name};
ghost use Rattle.table_updates.specs.Updates.{set_slot_link, set_expression, set_instruction};

use tables::{ExpressionEntry, InstructionEntry};
use words::{set_word, wide};

// the words kind, a and b of an expression entry
fn expression_words(e: ExpressionEntry) -> [u32; 3]
    ensures { result ≡ expression_kind_of e ∷ expression_a_of e ∷ expression_b_of e ∷ [] }
{
    match e {
        ExpressionEntry::Integer(a) => [0, a, 0],
        ExpressionEntry::Literal(a) => [1, a, 0],
        ExpressionEntry::FromSelf(a, b) => [2, a, b],
        ExpressionEntry::FromProgram(a, b) => [3, a, b],
        ExpressionEntry::Code(a) => [4, a, 0],
        ExpressionEntry::Frame(a) => [5, a, 0],
        ExpressionEntry::Not(a) => [6, a, 0],
        ExpressionEntry::Operate(k, a, b) => [k, a, b],
        ExpressionEntry::Bad => [16, 0, 0],
    }
}

// the words kind, a, b and c of an instruction entry
fn instruction_words(e: InstructionEntry) -> [u32; 4]
    ensures { result ≡ instruction_kind_of e ∷ instruction_a_of e ∷ instruction_b_of e ∷ instruction_c_of e ∷ [] }
{
    match e {
        InstructionEntry::AssignSelf(a, b, c) => [0, a, b, c],
        InstructionEntry::AssignProgram(a, b, c) => [1, a, b, c],
        InstructionEntry::Show(a) => [2, a, 0, 0],
        InstructionEntry::Jump(a, b) => [3, a, b, 0],
        InstructionEntry::Ifeq(a, b, c) => [4, a, b, c],
        InstructionEntry::Bad => [5, 0, 0, 0],
    }
}

pub fn set_frame_limit(p: &mut [u32], v: u32)
    ensures { p.new ≡ set_frame_limit p.old v }
{
    set_word(p, 0, v);
}

pub fn set_text_limit(p: &mut [u32], v: u32)
    ensures { p.new ≡ set_text_limit p.old v }
{
    set_word(p, 1, v);
}

pub fn set_names(p: &mut [u32], v: u32)
    ensures { p.new ≡ set_names p.old v }
{
    set_word(p, 2, v);
}

pub fn set_literals(p: &mut [u32], v: u32)
    ensures { p.new ≡ set_literals p.old v }
{
    set_word(p, 3, v);
}

pub fn set_expressions(p: &mut [u32], v: u32)
    ensures { p.new ≡ set_expressions p.old v }
{
    set_word(p, 4, v);
}

pub fn set_instructions(p: &mut [u32], v: u32)
    ensures { p.new ≡ set_instructions p.old v }
{
    set_word(p, 5, v);
}

pub fn set_codes(p: &mut [u32], v: u32)
    ensures { p.new ≡ set_codes p.old v }
{
    set_word(p, 6, v);
}

pub fn set_path_names(p: &mut [u32], v: u32)
    ensures { p.new ≡ set_path_names p.old v }
{
    set_word(p, 7, v);
}

pub fn set_program_slots(p: &mut [u32], v: u32)
    ensures { p.new ≡ set_program_slots p.old v }
{
    set_word(p, 8, v);
}

pub fn set_start(p: &mut [u32], v: u32)
    ensures { p.new ≡ set_start p.old v }
{
    set_word(p, 9, v);
}

pub fn set_name_length(p: &mut [u32], k: u32, v: u32)
    ensures { p.new ≡ set_name_length p.old k v }
{
    set_word(p, 64 + 17 * wide(k), v);
}

pub fn set_literal_length(p: &mut [u32], k: u32, v: u32)
    ensures { p.new ≡ set_literal_length p.old k v }
{
    set_word(p, 2240 + wide(k), v);
}

pub fn set_code_first(p: &mut [u32], k: u32, v: u32)
    ensures { p.new ≡ set_code_first p.old k v }
{
    set_word(p, 2368 + wide(k), v);
}

pub fn set_path_name(p: &mut [u32], j: u32, v: u32)
    ensures { p.new ≡ set_path_name p.old j v }
{
    set_word(p, 2496 + wide(j), v);
}

pub fn set_instruction_link(p: &mut [u32], i: u32, v: u32)
    ensures { p.new ≡ set_instruction_link p.old i v }
{
    set_word(p, 4548 + 5 * wide(i), v);
}

pub fn set_slot_name(p: &mut [u32], x: u32, v: u32)
    ensures { p.new ≡ set_slot_name p.old x v }
{
    set_word(p, 7107 + 5 * wide(x), v);
}

pub fn set_slot_link(p: &mut [u32], x: u32, v: u32)
    ensures { p.new ≡ set_slot_link p.old x v }
{
    set_word(p, 7108 + 5 * wide(x), v);
}

// kind, a and b of expression x; its slot name and slot link stay
pub fn set_expression(p: &mut [u32], x: u32, e: ExpressionEntry)
    ensures { p.new ≡ set_expression p.old x e }
{
    let [kind, a, b] = expression_words(e);
    set_word(p, 7104 + 5 * wide(x), kind);
    set_word(p, 7105 + 5 * wide(x), a);
    set_word(p, 7106 + 5 * wide(x), b);
}

// kind, a, b and c of instruction i; its link stays
pub fn set_instruction(p: &mut [u32], i: u32, e: InstructionEntry)
    ensures { p.new ≡ set_instruction p.old i e }
{
    let [kind, a, b, c] = instruction_words(e);
    set_word(p, 4544 + 5 * wide(i), kind);
    set_word(p, 4545 + 5 * wide(i), a);
    set_word(p, 4546 + 5 * wide(i), b);
    set_word(p, 4547 + 5 * wide(i), c);
}
