// For each source that the file `index` names: the name, and that it loads with its counts, or the number that refuses it. F and T are 256.
#![tactic(auto)]

use std::io;
use std::rt::Files;

fn print_count(rt: &impl Print, word: &[u8], n: u32) -> io::Result<()> {
    print_output::put(rt, word)?;
    print_output::put_number(rt, n)
}

// The counts in program words and, of the written frames, in heap words: all frames in use but self.
fn print_counts(rt: &impl Print, p: &[u32], h: &[u32]) -> io::Result<()> {
    print_count(rt, b" loaded: names ", tables::names(p))?;
    print_count(rt, b", instructions ", tables::instructions(p))?;
    print_count(rt, b", strings ", tables::literals(p))?;
    print_count(rt, b", codes ", tables::codes(p))?;
    print_count(rt, b", expressions ", tables::expressions(p))?;
    print_count(rt, b", path names ", tables::path_names(p))?;
    let frames = tables::number(heap::count_frames(h));
    print_count(rt, b", frames ", frames)
}

fn print_answer(rt: &impl Print, name: &[u8], n: u32, p: &[u32], h: &[u32]) -> io::Result<()> {
    print_output::put(rt, name)?;
    if n == 0 {
        print_counts(rt, p, h)?;
    } else {
        print_output::put(rt, b" refused ")?;
        print_output::put_number(rt, n)?;
    }
    print_output::put(rt, b"\n")
}

fn load_source(rt: &impl Print, name: &[u8], source: &[u8]) -> io::Result<()> {
    let mut p = [0u32; 16384];
    let mut h = [0u32; 16384];
    let mut l = [0u8; 8192];
    let mut t = [0u8; 16384];
    let a = load::load(source, 256, 256, &mut p, &mut h, &mut l, &mut t);
    let n = answers::load_number(a);
    print_answer(rt, name, n, &p, &h)
}

fn load_file<R: Files + Print + Eprint>(rt: &R, name: &[u8]) -> io::Result<()> {
    let mut buffer = [0u8; 65536];
    let Some(n) = input::read_opened(rt, name, &mut buffer) else {
        return Ok(());
    };
    load_source(rt, name, &buffer[..n])
}

fn main(rt: HostRuntime) -> io::Result<()> {
    let mut buffer = [0u8; 65536];
    let Some(n) = input::read_opened(&rt, b"index", &mut buffer) else {
        return Ok(());
    };
    lines::for_each_line(&buffer[..n], |name| load_file(&rt, name))
}
