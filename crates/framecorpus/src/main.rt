// For each source that the file `index` names: the name, and its printed run.
#![tactic(auto)]

use std::io;
use std::rt::Files;

fn print_run(rt: &impl Print, source: &[u8]) -> io::Result<()> {
    let mut out = [0u8; 4140];
    print_output::put(rt, printed_run::print(source, &mut out))
}

fn run_file<R: Files + Print + Eprint>(rt: &R, name: &[u8]) -> io::Result<()> {
    let mut source = [0u8; 16385];
    let Some(n) = input::told(rt, name, input::read_file(rt, name, &mut source)) else {
        return Ok(());
    };
    print_output::put(rt, name)?;
    print_output::put(rt, b"\n")?;
    print_run(rt, &source[..n])
}

fn main(rt: HostRuntime) -> io::Result<()> {
    let mut index = [0u8; 65536];
    let Some(n) = input::told(&rt, b"index", input::read_file(&rt, b"index", &mut index)) else {
        return Ok(());
    };
    lines::for_each_line(&index[..n], |name| run_file(&rt, name))
}
