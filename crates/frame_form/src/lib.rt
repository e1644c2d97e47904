// Whether what a value names is there, and whether the frames of heap words are well-formed (document 01: whole). No function here has a `requires`.
// The loops count by hand, the tests are `if`s and `&`: with `all` or `for` and `&&` a whole heap's test took 1.3 (`for`) to 1.9 (`all`) times as long.
#![tactic(auto)]

ghost use Rattle.std.specs.Prelude.{◌≡◌};
ghost use Rattle.frame_form.specs.Tests.{frame_in_use, text_in_use, value_formed, name_apart, name_new, slot_formed, slots_formed, frame_formed, frames_formed};

// The numbers of the program words that a state keeps within: F, T, and how many names, literals, codes and instructions there are.
#[derive(Clone, Copy)]
pub struct Limits {
    pub frames: u32,
    pub texts: u32,
    pub names: u32,
    pub literals: u32,
    pub codes: u32,
    pub instructions: u32,
}

// ---- Values

fn frame_in_use(h: &[u32], f: u32) -> bool
    ensures { result ≡ frame_in_use h.now f }
{
    (f < 256) & heap::frame_used(h, f)
}

fn text_in_use(h: &[u32], k: u32) -> bool
    ensures { result ≡ text_in_use h.now k }
{
    (k < 256) & heap::text_used(h, k)
}

pub fn value_formed(h: &[u32], limits: Limits, tag: u32, n: u32) -> bool
    ensures { result ≡ value_formed h.now limits tag n }
{
    if tag == 0 {
        return true;
    }
    if tag == 4 {
        return frame_in_use(h, n);
    }
    if tag == 3 {
        return n < limits.codes;
    }
    if tag == 1 {
        return n < limits.literals;
    }
    (tag == 2) & text_in_use(h, n)
}

// ---- Frames

fn name_apart(h: &[u32], f: u32, i: u32, j: u32) -> bool
    ensures { result ≡ name_apart h.now f i j }
{
    heap::slot_name(h, f, j) != heap::slot_name(h, f, i)
}

// No slot before slot i has its name.
fn name_new(h: &[u32], f: u32, i: u32) -> bool
    ensures { result ≡ name_new h.now f i }
{
    let mut ok = true;
    let mut j = 0u32;
    while j < i {
        ok = ok & name_apart(h, f, i, j);
        j += 1;
    }
    ok
}

fn slot_formed(h: &[u32], limits: Limits, f: u32, i: u32) -> bool
    ensures { result ≡ slot_formed h.now limits f i }
{
    (heap::slot_name(h, f, i) < limits.names)
        & value_formed(
            h,
            limits,
            heap::slot_tag(h, f, i),
            heap::slot_number(h, f, i),
        )
        & name_new(h, f, i)
}

fn slots_formed(h: &[u32], limits: Limits, f: u32, n: u32) -> bool
    ensures { result ≡ slots_formed h.now limits f n }
{
    let mut ok = true;
    let mut i = 0u32;
    while i < n {
        ok = ok & slot_formed(h, limits, f, i);
        i += 1;
    }
    ok
}

// Of a frame that is not in use nothing else is looked at.
fn frame_formed(h: &[u32], limits: Limits, f: u32) -> bool
    ensures { result ≡ frame_formed h.now limits f }
{
    let w = heap::frame_word(h, f);
    if w == 0 {
        return true;
    }
    let n = heap::slot_count(h, f);
    if 16 < n {
        return false;
    }
    (w == 1) & (heap::maker(h, f) <= limits.instructions) & slots_formed(h, limits, f, n)
}

pub fn frames_formed(h: &[u32], limits: Limits) -> bool
    ensures { result ≡ frames_formed h.now limits }
{
    let mut ok = true;
    let mut f = 0u32;
    while f < 256 {
        ok = ok & frame_formed(h, limits, f);
        f += 1;
    }
    ok
}
