// Writes and compares programs that no source has, so that the gate shows them answered at once: a text of more than 2^60 bytes, the same program with few levels, frames in
// frames as deep as there are expressions, and equal codes that hold each code inside them twice or three times, 60 levels deep: one that compared a pair again would never
// answer. Before these stand fewer levels and a bound on the time. Each is made from a loaded program, a word at a time.
#![tactic(auto)]

use framed::{RunAnswer, WriteAnswer};
use std::io;
use std::time::{CpuClock, Duration};

// The words of expression x, or of instruction i, from a place on: kind, first and second number.
fn set_entry(p: &mut [u32], place: usize, kind: u32, a: u32, b: u32) {
    words::set_word(p, place, kind);
    if place < 16000 {
        words::set_word(p, place + 1, a);
        words::set_word(p, place + 2, b);
    }
}

// One more, of the counts that programs have.
fn more(n: u32) -> u32 {
    if n < 2000 {
        return 1 + n;
    }
    n
}

// Code k is one `jump` (3) or `ifeq` (4) whose operands are all one new expression, which is a new code, the next. The number of that code.
fn grow(p: &mut [u32; 16384], kind: u32, k: u32) -> u32 {
    let x = words::word(p, 4);
    let i = words::word(p, 5);
    let next = words::word(p, 6);
    words::set_word(p, 2368 + words::wide(k), more(i));
    words::set_word(p, 4547 + 5 * words::wide(i), x);
    set_entry(p, 4544 + 5 * words::wide(i), kind, x, x);
    set_entry(p, 7104 + 5 * words::wide(x), 4, next, 0);
    words::set_word(p, 4, more(x));
    words::set_word(p, 5, more(i));
    words::set_word(p, 6, more(next));
    next
}

// So many levels from code k on.
fn grow_all(p: &mut [u32; 16384], kind: u32, k: u32, levels: u32) {
    let mut last = k;
    let mut n = 0u32;
    while n < levels {
        last = grow(p, kind, last);
        n += 1;
    }
}

// Expression x is a frame with one slot, which is the next expression and has name 0.
fn nest(p: &mut [u32; 16384], x: u32) {
    if x < 1023 {
        set_entry(p, 7104 + 5 * words::wide(x), 5, 1, 0);
    }
}

// From expression 4 on each is such a frame; the last one is code 1, which stood in expression 2.
fn nest_all(p: &mut [u32; 16384]) {
    let mut x = 4u32;
    while x < 1023 {
        nest(p, x);
        x += 1;
    }
    set_entry(p, 12219, 4, 1, 0);
    set_entry(p, 7114, 0, 0, 0);
    words::set_word(p, 4, 1024);
}

// A text as it is, or the first and the last bytes of a long one.
fn put_text(rt: &impl Print, text: &[u8]) -> io::Result<()> {
    let n = text.len();
    print_output::put_size(rt, n)?;
    print_output::put(rt, b" bytes: ")?;
    if n <= 400 {
        print_output::put(rt, text)?;
        return print_output::put(rt, b"\n");
    }
    print_output::put(rt, printing::front(text, 100))?;
    print_output::put(rt, b" .. ")?;
    print_output::put(rt, &text[n - 100..])?;
    print_output::put(rt, b"\n")
}

fn put_written(
    rt: &impl Print,
    p: &[u32; 16384],
    h: &[u32; 16384],
    l: &[u8; 8192],
    t: &[u8; 16384],
) -> io::Result<()> {
    let mut out = [0u8; 32768];
    let answer = write::write(p, h, l, t, &mut out);
    match answer {
        WriteAnswer::Written(n) => put_text(rt, printing::front(&out, n)),
        _ => {
            print_output::put(rt, b"refused ")?;
            print_output::put_number(rt, answers::write_number(answer))?;
            print_output::put(rt, b"\n")
        }
    }
}

// The program of a source, made deeper: by so many doubled levels, or by frames.
fn write_deep(rt: &impl Print, source: &[u8], levels: u32) -> io::Result<()> {
    let mut p = [0u32; 16384];
    let mut h = [0u32; 16384];
    let mut l = [0u8; 8192];
    let mut t = [0u8; 16384];
    let answer = load::load(source, 8, 8, &mut p, &mut h, &mut l, &mut t);
    if answers::load_number(answer) != 0 {
        return print_output::put(rt, b"not loaded\n");
    }
    if levels == 0 {
        nest_all(&mut p);
    } else {
        grow_all(&mut p, 3, 1, levels);
    }
    put_written(rt, &p, &h, &l, &t)
}

// What a run shows, or how it was answered.
fn put_run(
    rt: &impl Print,
    p: &[u32; 16384],
    h: &mut [u32; 16384],
    l: &[u8; 8192],
    t: &mut [u8; 16384],
) -> io::Result<()> {
    let mut out = [0u8; 64];
    let answer = run::run(p, h, l, t, 10, &mut out);
    match answer {
        RunAnswer::Stopped(r) => print_output::put(rt, printing::front(&out, r.bytes)),
        _ => print_output::put(rt, b"not well-formed\n"),
    }
}

// The codes of Main.a and Main.b, each made deeper by so many levels of a kind, and compared.
fn compare_deep(rt: &impl Print, kind: u32, a: u32, b: u32) -> io::Result<()> {
    let mut p = [0u32; 16384];
    let mut h = [0u32; 16384];
    let mut l = [0u8; 8192];
    let mut t = [0u8; 16384];
    let source =
        b"frame: [ Main := frame: [ start := code { self.r := ^.a == ^.b; show self.r; }, a := code {}, b := code {} ] ]";
    let answer = load::load(source, 8, 8, &mut p, &mut h, &mut l, &mut t);
    if answers::load_number(answer) != 0 {
        return print_output::put(rt, b"not loaded\n");
    }
    grow_all(&mut p, kind, 1, a);
    grow_all(&mut p, kind, 2, b);
    put_run(rt, &p, &mut h, &l, &mut t)
}

// This program has had less than two seconds of the processor's time.
fn soon(rt: &impl CpuClock) -> io::Result<bool> {
    Ok(rt.process_cpu_time()? < Duration::from_secs(2))
}

fn main(rt: HostRuntime) -> io::Result<()> {
    let jumps = b"frame: [ Main := frame: [ start := code { jump code {} 1; } ] ]";
    write_deep(&rt, jumps, 1)?;
    write_deep(&rt, jumps, 3)?;
    write_deep(&rt, jumps, 60)?;
    write_deep(&rt, jumps, 100)?;
    write_deep(
        &rt,
        b"frame: [ Main := frame: [ start := code { show code { show ^.^; }; } ], d := 1 ]",
        0,
    )?;
    // compared again and again, these would take many seconds, and what follows would never end
    compare_deep(&rt, 3, 31, 31)?;
    compare_deep(&rt, 4, 20, 20)?;
    if !soon(&rt)? {
        return print_output::put(&rt, b"too slow\n");
    }
    compare_deep(&rt, 3, 60, 60)?;
    compare_deep(&rt, 3, 60, 59)?;
    compare_deep(&rt, 4, 60, 60)?;
    compare_deep(&rt, 4, 62, 62)
}
