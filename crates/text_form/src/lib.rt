// Whether the made texts of heap words and text bytes are well-formed (document 01: whole). No function here has a `requires`.
// The loops count by hand, the tests are `if`s and `&`: with `all` or `for` and `&&` a whole heap's test took 1.3 (`for`) to 1.9 (`all`) times as long.
#![tactic(auto)]

ghost use Rattle.std.specs.Prelude.{◌≡◌};
ghost use Rattle.text_form.specs.Tests.{text_byte_formed, text_bytes_formed, text_formed, texts_formed};

fn text_byte_formed(t: &[u8], k: u32, i: u32) -> bool
    ensures { result ≡ text_byte_formed t.now k i }
{
    let b = heap::text_byte(t, k, i);
    (32 <= b) & (b <= 126) & (b != 34)
}

fn text_bytes_formed(t: &[u8], k: u32, n: u32) -> bool
    ensures { result ≡ text_bytes_formed t.now k n }
{
    let mut ok = true;
    let mut i = 0u32;
    while i < n {
        ok = ok & text_byte_formed(t, k, i);
        i += 1;
    }
    ok
}

// A text that is not in use has length 0.
fn text_formed(h: &[u32], t: &[u8], k: u32) -> bool
    ensures { result ≡ text_formed h.now t.now k }
{
    let n = heap::text_length(h, k);
    if 64 < n {
        return false;
    }
    text_bytes_formed(t, k, n)
}

pub fn texts_formed(h: &[u32], t: &[u8]) -> bool
    ensures { result ≡ texts_formed h.now t.now }
{
    let mut ok = true;
    let mut k = 0u32;
    while k < 256 {
        ok = ok & text_formed(h, t, k);
        k += 1;
    }
    ok
}
