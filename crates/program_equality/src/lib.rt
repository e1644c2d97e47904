// Document 02, A4: two codes are equal where their instruction lists agree: nested codes by the same rule, frame literals slot by slot, literals by their bytes.
// An expression of well-formed words has one whole, and a code literal one expression. So a pair of expressions is come to from one pair of wholes only; and where both
// wholes name an operand twice, the second pair is not compared again. Each pair is compared at most once, also in words that no source has.
#![tactic(auto)]

ghost use Rattle.std.specs.Prelude.{◌≡◌, ◌+◌};
ghost use Rattle.framed.specs.Common.{same};
ghost use Rattle.texts.specs.Texts.{Inside};
ghost use Rattle.trees.specs.Trees.{path_list};
ghost use Rattle.program_form.specs.WellFormed.{WellFormed};
ghost use Rattle.program_equality.specs.Agreement.{names_agree, bases_agree, two_agree, three_agree, expressions_agree, slots_agree};
ghost use Rattle.program_equality.specs.Agreement.{instructions_agree, lists_agree, codes_agree};
ghost use Rattle.program_equality.specs.Agreement.{TwoBases, TwoExpressions, TwoSlotPlaces, TwoInstructions, TwoCodePlaces};

// No word ends the loop, so that compiled code compares many at once.
fn same_words(a: &[u32], b: &[u32]) -> bool
    ensures { result ≡ same a.now b.now }
{
    if a.len() != b.len() {
        return false;
    }
    let mut agree = true;
    for i in 0..a.len() {
        agree = agree & (a[i] == b[i]);
    }
    agree
}

// The n path names from j on.
fn path_names<'a>(p: &'a [u32], j: u32, n: u32) -> &'a [u32]
    requires { Inside p.now (2496 + j) n }
    ensures { result.now ≡ path_list p.now n j }
{
    let from = 2496 + words::wide(j);
    &p[from..from + words::wide(n)]
}

// The n path names from j on are the m path names from k on.
fn same_names(p: &[u32], j: u32, n: u32, k: u32, m: u32) -> bool
    requires { Inside p.now (2496 + j) n × Inside p.now (2496 + k) m }
    ensures { result ≡ names_agree p.now j n k m }
{
    same_words(path_names(p, j, n), path_names(p, k, m))
}

// Expressions x and y, which are bases.
#[cycle(same)]
fn same_base(p: &[u32], l: &[u8], x: u32, y: u32) -> bool
    requires { TwoBases p.now l.now x y }
    ensures { result ≡ bases_agree p.now l.now x y }
{
    let kind = tables::expression_kind(p, x);
    if tables::expression_kind(p, y) != kind {
        return false;
    }
    let a = tables::expression_a(p, x);
    let b = tables::expression_a(p, y);
    if kind == 0 {
        return a == b;
    }
    if kind == 1 {
        return texts::same_literal_bytes(p, l, a, b);
    }
    if kind == 4 {
        return same_list(p, l, tables::code_first(p, a), tables::code_first(p, b));
    }
    same_names(
        p,
        a,
        tables::expression_b(p, x),
        b,
        tables::expression_b(p, y),
    )
}

// a with c, and b with d.
#[cycle(same)]
fn same_two(p: &[u32], l: &[u8], a: u32, b: u32, c: u32, d: u32) -> bool
    requires { TwoBases p.now l.now a c × TwoBases p.now l.now b d }
    ensures { result ≡ two_agree p.now l.now a b c d }
{
    if !same_base(p, l, a, c) {
        return false;
    }
    if (a == b) & (c == d) {
        return true;
    }
    same_base(p, l, b, d)
}

// a with d, b with e, and c with f.
#[cycle(same)]
fn same_three(p: &[u32], l: &[u8], a: u32, b: u32, c: u32, d: u32, e: u32, f: u32) -> bool
    requires { TwoBases p.now l.now a d × TwoBases p.now l.now b e × TwoBases p.now l.now c f }
    ensures { result ≡ three_agree p.now l.now a b c d e f }
{
    if !same_two(p, l, a, b, d, e) {
        return false;
    }
    if ((a == c) & (d == f)) | ((b == c) & (e == f)) {
        return true;
    }
    same_base(p, l, c, f)
}

// Expressions x and y.
#[cycle(same)]
fn same_expression(p: &[u32], l: &[u8], x: u32, y: u32) -> bool
    requires { TwoExpressions p.now l.now x y }
    ensures { result ≡ expressions_agree p.now l.now x y }
{
    let kind = tables::expression_kind(p, x);
    if kind != tables::expression_kind(p, y) {
        return false;
    }
    if kind < 5 {
        return same_base(p, l, x, y);
    }
    let a = tables::expression_a(p, x);
    let b = tables::expression_a(p, y);
    if kind == 5 {
        return same_slots(p, l, tables::link(1024, x, a), tables::link(1024, y, b));
    }
    if kind == 6 {
        return same_base(p, l, a, b);
    }
    same_two(
        p,
        l,
        a,
        tables::expression_b(p, x),
        b,
        tables::expression_b(p, y),
    )
}

// The slots from two places on: names and expressions in order.
#[cycle(same)]
fn same_slots(p: &[u32], l: &[u8], from: u32, to: u32) -> bool
    requires { TwoSlotPlaces p.now l.now from to }
    ensures { result ≡ slots_agree p.now l.now from to }
{
    let mut y = from;
    let mut z = to;
    while y != 0 {
        if z == 0 {
            return false;
        }
        if tables::slot_name(p, y - 1) != tables::slot_name(p, z - 1) {
            return false;
        }
        if !same_expression(p, l, y - 1, z - 1) {
            return false;
        }
        y = tables::slot_after(p, y - 1);
        z = tables::slot_after(p, z - 1);
    }
    z == 0
}

// Instructions i and j.
#[cycle(same)]
fn same_instruction(p: &[u32], l: &[u8], i: u32, j: u32) -> bool
    requires { TwoInstructions p.now l.now i j }
    ensures { result ≡ instructions_agree p.now l.now i j }
{
    let kind = tables::instruction_kind(p, i);
    if tables::instruction_kind(p, j) != kind {
        return false;
    }
    let a = tables::instruction_a(p, i);
    let d = tables::instruction_a(p, j);
    if kind == 2 {
        return same_base(p, l, a, d);
    }
    let b = tables::instruction_b(p, i);
    let e = tables::instruction_b(p, j);
    if kind == 3 {
        return same_two(p, l, a, b, d, e);
    }
    let c = tables::instruction_c(p, i);
    let f = tables::instruction_c(p, j);
    if kind == 4 {
        return same_three(p, l, a, b, c, d, e, f);
    }
    if !same_names(p, a, b, d, e) {
        return false;
    }
    same_expression(p, l, c, f)
}

// The instructions from two places on.
#[cycle(same)]
fn same_list(p: &[u32], l: &[u8], from: u32, to: u32) -> bool
    requires { TwoCodePlaces p.now l.now from to }
    ensures { result ≡ lists_agree p.now l.now from to }
{
    let mut a = from;
    let mut b = to;
    while a != 0 {
        if b == 0 {
            return false;
        }
        if !same_instruction(p, l, a - 1, b - 1) {
            return false;
        }
        a = tables::instruction_after(p, a - 1);
        b = tables::instruction_after(p, b - 1);
    }
    b == 0
}

// Codes k and m. Equal numbers answer at once.
pub fn same_codes(p: &[u32], l: &[u8], k: u32, m: u32) -> bool
    requires { WellFormed p.now l.now }
    ensures { result ≡ codes_agree p.now l.now k m }
{
    if k == m {
        return true;
    }
    same_list(p, l, places::first_place(p, k), places::first_place(p, m))
}
