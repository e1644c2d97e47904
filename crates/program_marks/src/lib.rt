// Arrays of marks: what is part of what in program words. Each is filled in one pass. No function here has a `requires`.
#![tactic(auto)]

ghost use Rattle.std.specs.Prelude.{◌≡◌};
ghost use Rattle.program_marks.specs.Marks.{mark_slots, mark_parts, mark_expressions, mark_operands, mark_instructions};
ghost use Rattle.program_marks.specs.Marks.{mark_named, mark_names, mark_firsts, mark_next, mark_nexts, home_of, mark_home, mark_homes};

use tables::{
    ExpressionEntry, InstructionEntry, code_first, codes, expression_at, expressions, follow_slot,
    instruction_after, instruction_at, instructions, link,
};
use words::{set_word, wide, word};

// Cell 1 + a of an array is about entry a.
#[derive(Drop)]
pub struct Marks {
    // the expression of which an expression is part
    pub expression_wholes: [u32; 1025],
    // the instruction of which it is part
    pub instruction_wholes: [u32; 1025],
    // the code in which an instruction stands
    pub instruction_codes: [u32; 513],
    // the expression that names a code
    pub code_names: [u32; 129],
    // the code in which an expression is written
    pub homes: [u32; 1025],
}

impl Marks {
    // Marks what program words say, over what stood here. It is filled in place: handed back, 15 KB more would lie on the stack.
    pub fn fill(&mut self, p: &[u32])
        ensures expression_wholes { self.new.expression_wholes ≡ mark_expressions p.now self.old.expression_wholes }
        ensures instruction_wholes { self.new.instruction_wholes ≡ mark_instructions p.now self.old.instruction_wholes }
        ensures instruction_codes { self.new.instruction_codes ≡ mark_nexts p.now (mark_firsts p.now self.old.instruction_codes) }
        ensures code_names { self.new.code_names ≡ mark_names p.now self.old.code_names }
        ensures homes { self.new.homes ≡ mark_homes p.now self.new.expression_wholes self.new.instruction_wholes self.new.instruction_codes self.old.homes }
    {
        mark_expressions(p, &mut self.expression_wholes);
        mark_instructions(p, &mut self.instruction_wholes);
        mark_firsts(p, &mut self.instruction_codes);
        mark_nexts(p, &mut self.instruction_codes);
        mark_names(p, &mut self.code_names);
        mark_homes(
            p,
            &self.expression_wholes,
            &self.instruction_wholes,
            &self.instruction_codes,
            &mut self.homes,
        );
    }
}

// the slots from the place z on get the mark w
fn mark_slots(p: &[u32], z: u32, w: u32, m: &mut [u32])
    ensures { m.new ≡ mark_slots p.now z w m.old }
{
    let mut y = z;
    for j in 0..16u32 {
        set_word(m, wide(y), w);
        if y == 0 {
            return;
        }
        y = follow_slot(p, y);
    }
}

// the parts of expression x, whose entry is e, get the mark w
fn mark_parts(p: &[u32], x: u32, w: u32, e: ExpressionEntry, m: &mut [u32])
    ensures { m.new ≡ mark_parts p.now x w e m.old }
{
    match e {
        ExpressionEntry::Frame(d) => mark_slots(p, link(1024, x, d), w, m),
        ExpressionEntry::Not(a) => set_word(m, 1 + wide(a), w),
        ExpressionEntry::Operate(_, a, b) => {
            set_word(m, 1 + wide(a), w);
            set_word(m, 1 + wide(b), w);
        }
        _ => {}
    }
}

fn mark_expressions(p: &[u32], m: &mut [u32])
    ensures { m.new ≡ mark_expressions p.now m.old }
{
    let n = expressions(p);
    for x in 0..n {
        mark_parts(p, x, 1 + x, expression_at(p, x), m);
    }
}

// the parts of an instruction, whose entry is e, get the mark w
fn mark_operands(w: u32, e: InstructionEntry, m: &mut [u32])
    ensures { m.new ≡ mark_operands w e m.old }
{
    match e {
        InstructionEntry::AssignSelf(_, _, a)
        | InstructionEntry::AssignProgram(_, _, a)
        | InstructionEntry::Show(a) => set_word(m, 1 + wide(a), w),
        InstructionEntry::Jump(a, b) => {
            set_word(m, 1 + wide(a), w);
            set_word(m, 1 + wide(b), w);
        }
        InstructionEntry::Ifeq(a, b, u) => {
            set_word(m, 1 + wide(a), w);
            set_word(m, 1 + wide(b), w);
            set_word(m, 1 + wide(u), w);
        }
        InstructionEntry::Bad => {}
    }
}

fn mark_instructions(p: &[u32], m: &mut [u32])
    ensures { m.new ≡ mark_instructions p.now m.old }
{
    let n = instructions(p);
    for i in 0..n {
        mark_operands(1 + i, instruction_at(p, i), m);
    }
}

// the code that the entry e names gets the mark w
fn mark_named(w: u32, e: ExpressionEntry, m: &mut [u32])
    ensures { m.new ≡ mark_named w e m.old }
{
    if let ExpressionEntry::Code(k) = e {
        set_word(m, 1 + wide(k), w);
    }
}

fn mark_names(p: &[u32], m: &mut [u32])
    ensures { m.new ≡ mark_names p.now m.old }
{
    let n = expressions(p);
    for x in 0..n {
        mark_named(1 + x, expression_at(p, x), m);
    }
}

fn mark_firsts(p: &[u32], m: &mut [u32])
    ensures { m.new ≡ mark_firsts p.now m.old }
{
    let n = codes(p);
    for k in 0..n {
        set_word(m, wide(code_first(p, k)), 1 + k);
    }
}

// the instruction after i gets the mark of i
fn mark_next(p: &[u32], i: u32, m: &mut [u32])
    ensures { m.new ≡ mark_next p.now i m.old }
{
    let v = word(m, 1 + wide(i));
    set_word(m, wide(instruction_after(p, i)), v);
}

fn mark_nexts(p: &[u32], m: &mut [u32])
    ensures { m.new ≡ mark_nexts p.now m.old }
{
    let n = instructions(p);
    for i in 0..n {
        mark_next(p, i, m);
    }
}

// the code in which expression x is written
fn home_of(o: &[u32], q: &[u32], c: &[u32], x: u32, h: &[u32]) -> u32
    ensures { result ≡ home_of o.now q.now c.now x h.now }
{
    let v = word(o, 1 + wide(x));
    if v != 0 {
        return word(h, wide(v));
    }
    let w = word(q, 1 + wide(x));
    if w == 0 {
        return 0;
    }
    word(c, wide(w))
}

fn mark_home(o: &[u32], q: &[u32], c: &[u32], x: u32, h: &mut [u32])
    ensures { h.new ≡ mark_home o.now q.now c.now x h.old }
{
    let v = home_of(o, q, c, x, h);
    set_word(h, 1 + wide(x), v);
}

fn mark_homes(p: &[u32], o: &[u32], q: &[u32], c: &[u32], h: &mut [u32])
    ensures { h.new ≡ mark_homes p.now o.now q.now c.now h.old }
{
    let n = expressions(p);
    for x in 0..n {
        mark_home(o, q, c, x, h);
    }
}
