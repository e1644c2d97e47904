// Bytes written into a lent buffer from a position on. What would lie past the buffer's end is dropped.
#![tactic(auto)]

ghost use Rattle.std.specs.Prelude.{◌≡◌, ◌+◌, ◌≤◌, length};
ghost use Rattle.splice.specs.Splice.{splice};

// Bytes that all fit. Not `copy_from_slice`: for the longer ones it calls memmove, which the library for C does not name.
fn copy(m: &mut [u8], at: usize, s: &[u8])
    requires { at + length s.now ≤ length m.old }
    ensures { m.new ≡ splice m.old at s.now }
{
    for i in 0..s.len() {
        m[at + i] = s[i];
    }
}

// Two ways, since most of what fits is a short text whose length is known where this is called, and is copied in one move: with the smaller length for both, write took longer.
pub fn write(m: &mut [u8], at: usize, s: &[u8])
    ensures { m.new ≡ splice m.old at s.now }
{
    if m.len() < at {
        return;
    }
    let space = m.len() - at;
    if s.len() <= space {
        copy(m, at, s);
    } else {
        copy(m, at, &s[..space]);
    }
}
