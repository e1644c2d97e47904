// The value of an expression that is read as a base: integers, strings and codes as they are written, paths fetched anew at each use. It reads only.
// This is where a step spends its time. So a value on its way is one number, its tag and 8 times its number, 5 where Fetch is undefined (an enum is given back through memory), and where
// the memories have their lengths and a word is in its range, one test stands for many. The parts of `quick` have no other caller, so that compiled code stores no slice anew for them.
#![tactic(auto)]

ghost use Rattle.std.specs.Prelude.{◌≡◌, ◌+◌, ◌-◌, ◌*◌, ◌/◌, ◌%◌, ◌≤◌, length};
ghost use Rattle.framed.specs.Machine.{defined};
ghost use Rattle.heap.specs.Words.{value_of};
ghost use Rattle.paths.specs.Paths.{fetched};
ghost use Rattle.operands.specs.Operands.{operand_value, unpacked, Placed, AtPath, path_number, quick_number};

use framed::{Text, Value};
use tables::ExpressionEntry;

// The place of the slot with the name among the n slots from place a on, 0 where there is none.
fn slot_place(h: &[u32], a: usize, n: usize, name: u32) -> usize
    requires { a + 3 * n ≤ length h.now }
    ensures { Placed h.now a n name result }
{
    let end = a + 3 * n;
    let mut k = a;
    while k < end {
        if h[k] == name {
            return k;
        }
        k += 3;
    }
    0
}

// Fetch from the value at place root along the n path names from place j on: the value as a number, 5 where it is undefined; 6 where a word is not in its range.
fn walk(p: &[u32], h: &[u32], root: usize, j: usize, n: usize) -> u64
    requires { AtPath p.now h.now root j n }
    ensures { result ≡ path_number p.now h.now root (j - 2496) n }
{
    let mut tag = h[root];
    let mut f = h[root + 1];
    for i in 0..n {
        if tag < 4 {
            return 5;
        }
        if 256 <= f {
            return 5;
        }
        let a = 128 + 51 * words::wide(f);
        if h[a] != 1 {
            return 5;
        }
        let c = h[a + 1];
        if 16 < c {
            return 6;
        }
        let k = slot_place(h, a + 3, words::wide(c), p[j + i]);
        if k == 0 {
            return 5;
        }
        tag = h[k + 1];
        f = h[k + 2];
    }
    if 4 < tag {
        return 6;
    }
    (f as u64) * 8 + (tag as u64)
}

// The value of expression x as a number, 5 where it is undefined; 6 where a memory has not its length or a word is not in its range.
fn quick(p: &[u32], h: &[u32], x: u32) -> u64
    ensures { result ≡ quick_number p.now h.now x }
{
    if p.len() != 16384 {
        return 6;
    }
    if h.len() != 16384 {
        return 6;
    }
    if 1024 <= x {
        return 6;
    }
    let i = 7104 + 5 * words::wide(x);
    let kind = p[i];
    let a = p[i + 1];
    if kind < 2 {
        return (a as u64) * 8 + (kind as u64);
    }
    if kind < 4 {
        let j = words::wide(a);
        let n = words::wide(p[i + 2]);
        if 2048 < j + n {
            return 6;
        }
        return walk(p, h, 2 * words::wide(kind) - 4, 2496 + j, n);
    }
    if kind == 4 {
        return (a as u64) * 8 + 3;
    }
    0
}

// The value of expression x read as a base, with every word tested; undefined where the end is 31.
fn operand_tested(p: &[u32], h: &[u32], x: u32) -> Option<Value>
    ensures { defined (fetched result) ≡ operand_value p.now h.now x }
{
    let e = tables::expression_at(p, x);
    match e {
        ExpressionEntry::Integer(w) => Some(Value::Int(ints::int_of(w))),
        ExpressionEntry::Literal(k) => Some(Value::Text(Text::Literal(k))),
        ExpressionEntry::FromSelf(j, n) => paths::fetch(p, h, heap::self_value(h), j, n),
        ExpressionEntry::FromProgram(j, n) => paths::fetch(p, h, heap::program_value(h), j, n),
        ExpressionEntry::Code(k) => Some(Value::Code(k)),
        ExpressionEntry::Frame(_) => Some(Value::Int(0)),
        ExpressionEntry::Not(_) => Some(Value::Int(0)),
        ExpressionEntry::Operate(_, _, _) => Some(Value::Int(0)),
        ExpressionEntry::Bad => Some(Value::Int(0)),
    }
}

// The value that a number stands for.
pub fn value(r: u64) -> Value
    ensures { result ≡ value_of (r % 8) (r / 8 % 4294967296) }
{
    heap::value_of((r % 8) as u32, (r / 8 % 4294967296) as u32)
}

// A value as a number, 5 where there is none.
fn pack(r: Option<Value>) -> u64
    ensures { unpacked result ≡ r }
{
    let Some(v) = r else {
        return 5;
    };
    (heap::number_of(v) as u64) * 8 + (heap::tag_of(v) as u64)
}

// The value of expression x read as a base, as a number; 5 where it is undefined.
pub fn operand_number(p: &[u32], h: &[u32], x: u32) -> u64
    ensures { defined (fetched (unpacked result)) ≡ operand_value p.now h.now x }
{
    let r = quick(p, h, x);
    if r == 6 {
        return pack(operand_tested(p, h, x));
    }
    r
}

// Undefined where the end is 31.
pub fn operand(p: &[u32], h: &[u32], x: u32) -> Option<Value>
    ensures { defined (fetched result) ≡ operand_value p.now h.now x }
{
    let r = quick(p, h, x);
    if r == 6 {
        return operand_tested(p, h, x);
    }
    if r == 5 {
        return None;
    }
    Some(value(r))
}
