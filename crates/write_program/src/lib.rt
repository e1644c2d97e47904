// The text of the program that program words and literal bytes hold. Where the text is past its limit, nothing more is walked.
#![tactic(auto)]

ghost use Rattle.std.specs.Prelude.{◌<◌, take};
ghost use Rattle.framed.specs.Paths.{in_code, outside_code};
ghost use Rattle.framed.specs.Writer.{text};
ghost use Rattle.tables.specs.Fields.{expressions, instructions, slot_name};
ghost use Rattle.program_form.specs.Sound.{SlotPlace};
ghost use Rattle.places.specs.Places.{CodePlace};
ghost use Rattle.trees.specs.Held.{program_held};
ghost use Rattle.write_words.specs.Appending.{CanAppend, Appended};
ghost use Rattle.write_words.specs.Words.{AtName};
ghost use Rattle.write_program.specs.Text.{base_text, expression_text, slots_text, instruction_text, code_text, outside_text, lead_text, head_text};
ghost use Rattle.write_program.specs.Text.{CanWrite, OutsideSlot, OutsideSlots, OutsideAppended};

use tables::{ExpressionEntry, InstructionEntry, expression_at};
use write_words::{
    append, append_integer, append_name, append_operator, append_program_path, append_self_path,
    append_string,
};

// In code: `holding` are the names of the holding frame.

// Expression x read as a base; what is no base is written as 0.
#[cycle(code)]
fn base_text(
    p: &[u32],
    l: &[u8],
    holding: &[u32],
    m: &mut [u8],
    limit: usize,
    at: usize,
    x: u32,
) -> usize
    requires can_write { CanWrite p.now l.now m.old limit at }
    requires x_bound { x < expressions p.now }
    ensures { Appended m.old limit at (base_text p.now l.now (in_code holding.now) x) m.new result }
{
    if limit < at {
        return at;
    }
    let e = expression_at(p, x);
    match e {
        ExpressionEntry::Integer(w) => append_integer(m, limit, at, ints::int_of(w)),
        ExpressionEntry::Literal(k) => append_string(p, l, m, limit, at, k),
        ExpressionEntry::FromSelf(j, n) => append_self_path(p, m, limit, at, j, n),
        ExpressionEntry::FromProgram(j, n) => append_program_path(p, holding, m, limit, at, j, n),
        ExpressionEntry::Code(k) => {
            let a = append(m, limit, at, b" code {");
            let b = code_text(p, l, holding, m, limit, a, tables::code_first(p, k));
            append(m, limit, b, b" }")
        }
        _ => append(m, limit, at, b" 0"),
    }
}

// The instructions from a place on, each closed by `;`.
#[cycle(code)]
fn code_text(
    p: &[u32],
    l: &[u8],
    holding: &[u32],
    m: &mut [u8],
    limit: usize,
    at: usize,
    from: u32,
) -> usize
    requires can_write { CanWrite p.now l.now m.old limit at }
    requires code_place { CodePlace p.now from }
    ensures { Appended m.old limit at (code_text p.now l.now (in_code holding.now) from) m.new result }
{
    let mut b = at;
    let mut z = from;
    while z != 0 {
        if limit < b {
            return b;
        }
        let a = instruction_text(p, l, holding, m, limit, b, z - 1);
        b = append(m, limit, a, b" ;");
        z = tables::instruction_after(p, z - 1);
    }
    b
}

// Instruction i. Well-formed words have none without a form.
#[cycle(code)]
fn instruction_text(
    p: &[u32],
    l: &[u8],
    holding: &[u32],
    m: &mut [u8],
    limit: usize,
    at: usize,
    i: u32,
) -> usize
    requires can_write { CanWrite p.now l.now m.old limit at }
    requires i_bound { i < instructions p.now }
    ensures { Appended m.old limit at (instruction_text p.now l.now (in_code holding.now) i) m.new result }
{
    let e = tables::instruction_at(p, i);
    match e {
        InstructionEntry::AssignSelf(j, n, x) => {
            let a = append_self_path(p, m, limit, at, j, n);
            let b = append(m, limit, a, b" :=");
            expression_text(p, l, holding, m, limit, b, x)
        }
        InstructionEntry::AssignProgram(j, n, x) => {
            let a = append_program_path(p, holding, m, limit, at, j, n);
            let b = append(m, limit, a, b" :=");
            expression_text(p, l, holding, m, limit, b, x)
        }
        InstructionEntry::Show(x) => {
            let a = append(m, limit, at, b" show");
            base_text(p, l, holding, m, limit, a, x)
        }
        InstructionEntry::Jump(x, y) => {
            let a = append(m, limit, at, b" jump");
            let b = base_text(p, l, holding, m, limit, a, x);
            base_text(p, l, holding, m, limit, b, y)
        }
        InstructionEntry::Ifeq(x, y, z) => {
            let a = append(m, limit, at, b" ifeq");
            let b = base_text(p, l, holding, m, limit, a, x);
            let c = base_text(p, l, holding, m, limit, b, y);
            base_text(p, l, holding, m, limit, c, z)
        }
        InstructionEntry::Bad => at,
    }
}

// Expression x; one that is no frame, `!` or operation is a base.
#[cycle(code)]
fn expression_text(
    p: &[u32],
    l: &[u8],
    holding: &[u32],
    m: &mut [u8],
    limit: usize,
    at: usize,
    x: u32,
) -> usize
    requires can_write { CanWrite p.now l.now m.old limit at }
    requires x_bound { x < expressions p.now }
    ensures { Appended m.old limit at (expression_text p.now l.now (in_code holding.now) (in_code holding.now) x) m.new result }
{
    let e = expression_at(p, x);
    match e {
        ExpressionEntry::Frame(d) => {
            let a = append(m, limit, at, b" frame : [");
            let b = slots_text(p, l, holding, m, limit, a, tables::link(1024, x, d));
            append(m, limit, b, b" ]")
        }
        ExpressionEntry::Not(y) => {
            let a = append(m, limit, at, b" !");
            base_text(p, l, holding, m, limit, a, y)
        }
        ExpressionEntry::Operate(o, y, z) => {
            let a = base_text(p, l, holding, m, limit, at, y);
            let b = append_operator(m, limit, a, o);
            base_text(p, l, holding, m, limit, b, z)
        }
        _ => base_text(p, l, holding, m, limit, at, x),
    }
}

// What stands before the name of a slot: a comma where it is not the first, and a space.
fn slot_lead(m: &mut [u8], limit: usize, at: usize, first: bool) -> usize
    requires { CanAppend m.old limit at }
    ensures { Appended m.old limit at (lead_text first) m.new result }
{
    if first {
        return append(m, limit, at, b" ");
    }
    append(m, limit, at, b" , ")
}

// What stands before the expression of slot y: a comma where it is not the first, its name, and `:=`.
fn slot_head(p: &[u32], m: &mut [u8], limit: usize, at: usize, first: bool, y: u32) -> usize
    requires at_name { AtName p.now (slot_name p.now y) }
    requires can_append { CanAppend m.old limit at }
    ensures { Appended m.old limit at (head_text p.now first y) m.new result }
{
    let a = slot_lead(m, limit, at, first);
    let b = append_name(p, m, limit, a, tables::slot_name(p, y));
    append(m, limit, b, b" :=")
}

// The slots from a place on, in a frame in code.
#[cycle(code)]
fn slots_text(
    p: &[u32],
    l: &[u8],
    holding: &[u32],
    m: &mut [u8],
    limit: usize,
    at: usize,
    from: u32,
) -> usize
    requires can_write { CanWrite p.now l.now m.old limit at }
    requires slot_place { SlotPlace p.now from }
    ensures { Appended m.old limit at (slots_text p.now l.now (in_code holding.now) from) m.new result }
{
    let mut b = at;
    let mut z = from;
    while z != 0 {
        if limit < b {
            return b;
        }
        let a = slot_head(p, m, limit, b, z == from, z - 1);
        b = expression_text(p, l, holding, m, limit, a, z - 1);
        z = tables::slot_after(p, z - 1);
    }
    b
}

// Outside code: the first `depth` numbers of `g` are the names of the frame that holds the slots.

// The expression of slot y.
#[cycle(frame)]
fn outside_text(
    p: &[u32],
    l: &[u8],
    g: &mut [u32],
    depth: usize,
    m: &mut [u8],
    limit: usize,
    at: usize,
    y: u32,
) -> usize
    requires can_write { CanWrite p.now l.now m.old limit at }
    requires outside_slot { OutsideSlot p.now g.old depth y }
    ensures { OutsideAppended g.old depth m.old limit at (outside_text p.now l.now (take depth g.old) y) g.new m.new result }
{
    let ExpressionEntry::Frame(d) = expression_at(p, y) else {
        return expression_text(p, l, &g[..depth], m, limit, at, y);
    };
    let a = append(m, limit, at, b" frame : [");
    g[depth] = tables::slot_name(p, y);
    let b = frame_text(p, l, g, depth + 1, m, limit, a, tables::link(1024, y, d));
    append(m, limit, b, b" ]")
}

// The slots from a place on.
#[cycle(frame)]
fn frame_text(
    p: &[u32],
    l: &[u8],
    g: &mut [u32],
    depth: usize,
    m: &mut [u8],
    limit: usize,
    at: usize,
    from: u32,
) -> usize
    requires can_write { CanWrite p.now l.now m.old limit at }
    requires outside_slots { OutsideSlots p.now g.old depth from }
    ensures { OutsideAppended g.old depth m.old limit at (slots_text p.now l.now (outside_code (take depth g.old)) from) g.new m.new result }
{
    let mut b = at;
    let mut z = from;
    while z != 0 {
        if limit < b {
            return b;
        }
        let c = slot_head(p, m, limit, b, z == from, z - 1);
        b = outside_text(p, l, g, depth, m, limit, c, z - 1);
        z = tables::slot_after(p, z - 1);
    }
    b
}

// The whole text from the buffer's start on: its length, or limit + 1 where it is longer. Never inlined, so that its array is not on the stack while the memories are tested.
#[inline(never)]
pub fn program_text(p: &[u32], l: &[u8], m: &mut [u8], limit: usize) -> usize
    requires { CanWrite p.now l.now m.old limit 0 }
    ensures { Appended m.old limit 0 (text (program_held p.now l.now)) m.new result }
{
    let mut g = [0u32; 1024];
    let a = append(m, limit, 0, b"frame : [");
    let b = frame_text(p, l, &mut g, 0, m, limit, a, tables::program_slots(p));
    append(m, limit, b, b" ]")
}
