// Commit: what an assignment or a show does to the memories, after reserve and check. It cannot fail: where check has met an end nothing or integer 0 is written.
#![tactic(auto)]

ghost use Rattle.std.specs.Prelude.{◌≡◌};
ghost use Rattle.trees.specs.Trees.{path_list};
ghost use Rattle.allocation.specs.Known.{Full};
ghost use Rattle.evaluation.specs.Evaluation.{CanEvaluate};
ghost use Rattle.commit.specs.Commit.{put_along, root_of, set_root, path_of, Assigns, CanCommit, Commits};
ghost use Rattle.heap.specs.Words.{set_position};
ghost use Rattle.tables.specs.Fields.{instruction_after};

use framed::Value;

// What became of an instruction that is done in one go: it is made; or it is left, as it makes something or shows.
#[derive(Clone, Copy, PartialEq, Eq)]
pub enum Done {
    Made,
    Left,
}

// Put along the n path names from j on; nothing where no rule applies.
fn put(p: &[u32], h: &mut [u32], root: Value, j: u32, n: u32, v: Value)
    ensures { h.new ≡ put_along p.now h.old root j n v }
{
    if let Some(at) = puts::put_target(p, h, root, j, n) {
        puts::put_slot(h, at.frame, at.name, v);
    }
}

// Self where `own`, else the program.
pub fn root(h: &[u32], own: bool) -> Value
    ensures { result ≡ root_of own h.now }
{
    if own {
        return heap::self_value(h);
    }
    heap::program_value(h)
}

pub fn set_root(h: &mut [u32], own: bool, v: Value)
    ensures { h.new ≡ set_root own h.old v }
{
    if own {
        heap::set_self(h, v);
        return;
    }
    heap::set_program(h, v);
}

// The value of the expression, then Put from the old self where `own`, else from the old program; an empty path sets it.
fn assign(
    p: &[u32],
    l: &[u8],
    h: &mut [u32],
    t: &mut [u8],
    own: bool,
    j: u32,
    n: u32,
    x: u32,
    low: u32,
    least: u32,
)
    requires can_evaluate { CanEvaluate p.now l.now h.old t.old x }
    requires full { Full h.old low least }
    ensures { Assigns p.now l.now h.old t.old (path_of own (path_list p.now n j)) x h.new t.new }
{
    let from = root(h, own);
    let v = evaluation::make(p, l, h, t, x, low, least);
    if n == 0 {
        set_root(h, own, v);
        return;
    }
    put(p, h, from, j, n, v);
}

// On to the instruction after instruction i.
pub fn go_on(p: &[u32], h: &mut [u32], i: u32)
    ensures { h.new ≡ set_position h.old (instruction_after p.now i) }
{
    heap::set_position(h, tables::instruction_after(p, i));
}

// What instruction i does, which assigns or shows: kinds 0 and 1 assign from self and from the program. Every frame below `low` and every made text below `least` is in use.
pub fn commit(p: &[u32], l: &[u8], h: &mut [u32], t: &mut [u8], i: u32, low: u32, least: u32)
    requires can_commit { CanCommit p.now l.now h.old t.old i }
    requires full { Full h.old low least }
    ensures { Commits p.now l.now h.old t.old i h.new t.new }
{
    let kind = tables::instruction_kind(p, i);
    if 2 <= kind {
        go_on(p, h, i);
        return;
    }
    let j = tables::instruction_a(p, i);
    let n = tables::instruction_b(p, i);
    let x = tables::instruction_c(p, i);
    assign(p, l, h, t, kind == 0, j, n, x, low, least);
    go_on(p, h, i);
}
