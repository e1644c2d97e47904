// `:=` of a join after reserve, in one go: everything is read before anything is written, and an end that is met leaves the words and the bytes as they are.
#![tactic(auto)]

ghost use Rattle.std.specs.Prelude.{◌≡◌};
ghost use Rattle.framed.specs.Answers.{end_met};
ghost use Rattle.allocation.specs.Known.{TextsFull};
ghost use Rattle.step_join.specs.Join.{joins_entry, CanAssignJoin, JoinsValues, CanPutJoin, JoinsOnce};

use framed::{End, Value};

// Instruction i assigns a join.
pub fn joins(p: &[u32], i: u32) -> bool
    ensures { result ≡ joins_entry p.now i }
{
    if 2 <= tables::instruction_kind(p, i) {
        return false;
    }
    tables::expression_kind(p, tables::instruction_c(p, i)) == 12
}

// The joined bytes as a new made text, put at the path of instruction i. The path's end is looked for before anything is written; every made text below `least` is in use.
fn put_join(
    p: &[u32],
    l: &[u8],
    h: &mut [u32],
    t: &mut [u8],
    i: u32,
    s: &[u8],
    least: u32,
) -> Result<(), End>
    requires can_put_join { CanPutJoin p.now l.now h.old t.old i s.now }
    requires texts_full { TextsFull h.old least }
    ensures { JoinsOnce p.now l.now h.old t.old i (end_met result) h.new t.new }
{
    let own = tables::instruction_kind(p, i) == 0;
    let j = tables::instruction_a(p, i);
    let names = tables::instruction_b(p, i);
    if names == 0 {
        let u = producing::make_text(h, t, s, least);
        commit::set_root(h, own, u);
        commit::go_on(p, h, i);
        return Ok(());
    }
    let at = puts::put_target(p, h, commit::root(h, own), j, names).ok_or(End::NoRule)?;
    puts::slot_end(h, at.frame, at.name)?;
    let u = producing::make_text(h, t, s, least);
    puts::put_slot(h, at.frame, at.name, u);
    commit::go_on(p, h, i);
    Ok(())
}

// The join of v and w, put at the path of instruction i. Their bytes are found once, for the test and for the text.
fn join_values(
    p: &[u32],
    l: &[u8],
    h: &mut [u32],
    t: &mut [u8],
    i: u32,
    v: Value,
    w: Value,
    least: u32,
) -> Result<(), End>
    requires joins_values { JoinsValues p.now l.now h.old t.old i v w }
    requires texts_full { TextsFull h.old least }
    ensures { JoinsOnce p.now l.now h.old t.old i (end_met result) h.new t.new }
{
    let mut bytes = [0u8; 64];
    let n = joining::fill_join(&mut bytes, p, l, h, t, v, w);
    if 64 < n {
        return Err(End::TextLength);
    }
    put_join(p, l, h, t, i, &bytes[..n], least)
}

// `:=` of a join, after reserve; every made text below `least` is in use.
pub fn assign_join(
    p: &[u32],
    l: &[u8],
    h: &mut [u32],
    t: &mut [u8],
    i: u32,
    least: u32,
) -> Result<(), End>
    requires can_assign_join { CanAssignJoin p.now l.now h.old t.old i }
    requires texts_full { TextsFull h.old least }
    ensures { JoinsOnce p.now l.now h.old t.old i (end_met result) h.new t.new }
{
    let x = tables::instruction_c(p, i);
    let m = operands::operand_number(p, h, tables::expression_a(p, x));
    if m == 5 {
        return Err(End::NoRule);
    }
    let n = operands::operand_number(p, h, tables::expression_b(p, x));
    if n == 5 {
        return Err(End::NoRule);
    }
    let v = operands::value(m);
    let w = operands::value(n);
    join_values(p, l, h, t, i, v, w, least)
}
