// Builds the memories of a small program that has run to its end, as the file `made` says, and looks along each line of the file `paths`. A line of `made` is a
// memory (0 program words, 1 heap words, 2 literal bytes, 3 text bytes), a place and a value.
#![tactic(auto)]

use framed::LookAnswer;
use std::io;

// A number, and the place after the byte behind it.
#[derive(Clone, Copy)]
struct Number {
    value: u32,
    next: usize,
}

fn number_at(s: &[u8], at: usize) -> Number {
    let mut n: u64 = 0;
    let mut i = at;
    while i < s.len() {
        let b = u64::from(s[i]);
        i += 1;
        if b < 48 {
            break;
        }
        n = (n % 4294967296) * 10 + (b - 48);
    }
    Number {
        value: (n % 4294967296) as u32,
        next: i,
    }
}

// One word or byte of one of the four memories.
fn put(
    p: &mut [u32],
    h: &mut [u32],
    l: &mut [u8],
    t: &mut [u8],
    memory: u32,
    place: u32,
    value: u32,
) {
    let k = words::wide(place);
    if memory == 0 {
        words::set_word(p, k, value);
        return;
    }
    if memory == 1 {
        words::set_word(h, k, value);
        return;
    }
    if memory == 2 {
        words::set_word(l, k, (value % 256) as u8);
        return;
    }
    words::set_word(t, k, (value % 256) as u8);
}

fn make(made: &[u8], p: &mut [u32], h: &mut [u32], l: &mut [u8], t: &mut [u8]) {
    let mut at = 0;
    while at < made.len() {
        let memory = number_at(made, at);
        let place = number_at(made, memory.next);
        let value = number_at(made, place.next);
        put(p, h, l, t, memory.value, place.value, value.value);
        if value.next <= at {
            return;
        }
        at = value.next;
    }
}

fn write_answer(rt: &impl Print, a: LookAnswer) -> io::Result<()> {
    match a {
        LookAnswer::Integer(n) => {
            print_output::put(rt, b"integer ")?;
            print_output::put_integer(rt, n)
        }
        LookAnswer::Text => print_output::put(rt, b"text"),
        LookAnswer::Code => print_output::put(rt, b"code"),
        LookAnswer::Frame(maker) => {
            print_output::put(rt, b"frame maker ")?;
            print_output::put_number(rt, maker)
        }
        LookAnswer::NotWellFormed => print_output::put(rt, b"20"),
        LookAnswer::NotPath => print_output::put(rt, b"21"),
        LookAnswer::Undefined => print_output::put(rt, b"22"),
    }
}

fn write_look<'a>(
    rt: &impl Print,
    p: &[u32],
    h: &[u32],
    l: &'a [u8],
    t: &'a [u8],
    path: &[u8],
) -> io::Result<()> {
    print_output::put(rt, path)?;
    print_output::put(rt, b" is ")?;
    write_answer(rt, look::look(p, h, l, t, path))?;
    print_output::put(rt, b" \"")?;
    print_output::put(rt, look::look_text(p, h, l, t, path))?;
    print_output::put(rt, b"\"\n")
}

fn write_looks<'a>(
    rt: &impl Print,
    p: &[u32],
    h: &[u32],
    l: &'a [u8],
    t: &'a [u8],
    paths: &[u8],
) -> io::Result<()> {
    lines::for_each_line(paths, |path| write_look(rt, p, h, l, t, path))
}

// As the memories are, then with another self.
fn look_thrice<'a>(
    rt: &impl Print,
    p: &[u32],
    h: &mut [u32],
    l: &'a [u8],
    t: &'a [u8],
    paths: &[u8],
) -> io::Result<()> {
    write_looks(rt, p, h, l, t, paths)?;
    print_output::put(rt, b"self is an integer\n")?;
    words::set_word(h, 0, 0);
    words::set_word(h, 1, 5);
    write_looks(rt, p, h, l, t, paths)?;
    print_output::put(rt, b"self is a frame that is not in use\n")?;
    words::set_word(h, 0, 4);
    words::set_word(h, 1, 3);
    write_looks(rt, p, h, l, t, paths)
}

fn main(rt: HostRuntime) -> io::Result<()> {
    let mut made = [0u8; 65536];
    let n = input::read_opened(&rt, b"made", &mut made).unwrap_or(0);
    let mut paths = [0u8; 65536];
    let k = input::read_opened(&rt, b"paths", &mut paths).unwrap_or(0);
    let mut p = [0u32; 16384];
    let mut h = [0u32; 16384];
    let mut l = [0u8; 8192];
    let mut t = [0u8; 16384];
    write_look(&rt, &p, &h, &l, &t, b"self")?;
    make(&made[..n], &mut p, &mut h, &mut l, &mut t);
    look_thrice(&rt, &p, &mut h, &l, &t, &paths[..k])
}
