// The start state in heap words: the written frames, the first self and the position at Main.start.
#![tactic(auto)]

ghost use Rattle.std.specs.Prelude.{◌≡◌};
ghost use Rattle.start_state.specs.Start.{new_self, rooted, CanStart, Makes, Starts};

use framed::Value;

// The written frames outside code: the number of the program frame.
fn make_written(p: &[u32], l: &[u8], h: &mut [u32], t: &mut [u8]) -> u32
    requires { CanStart p.now l.now h.old t.old }
    ensures { Makes p.now l.now result h.new t.new }
{
    let f = evaluation::claim(h, 0);
    let z = tables::program_slots(p);
    evaluation::fill(p, l, h, t, f, z, 0, 0);
    f
}

// Self is a new empty frame.
fn new_self(h: &mut [u32])
    ensures { h.new ≡ new_self h.old }
{
    let g = evaluation::claim(h, 0);
    heap::set_self(h, Value::Frame(g));
}

// Self is a new empty frame, program is v, and the position is that of Main.start.
fn root(p: &[u32], h: &mut [u32], v: Value)
    ensures { h.new ≡ rooted p.now h.old v }
{
    new_self(h);
    heap::set_program(h, v);
    let k = tables::start(p);
    heap::set_position(h, tables::code_first(p, k));
}

// Cleared memories become those of the start.
pub fn start(p: &[u32], l: &[u8], h: &mut [u32], t: &mut [u8])
    requires { CanStart p.now l.now h.old t.old }
    ensures { Starts p.now l.now h.new t.new }
{
    let f = make_written(p, l, h, t);
    root(p, h, Value::Frame(f));
}
