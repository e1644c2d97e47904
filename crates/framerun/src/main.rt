// Reads a source from standard input, to its end or one byte past the longest, and prints its run. Where it cannot be read, nothing is printed.
#![tactic(auto)]

use std::io;

fn main(rt: HostRuntime) -> io::Result<()> {
    let mut source = [0u8; 16385];
    let read = input::read_all(&mut rt.stdin(), &mut source);
    let Some(n) = input::told(&rt, b"standard input", read) else {
        return Ok(());
    };
    let mut out = [0u8; 4140];
    print_output::put(&rt, printed_run::print(&source[..n], &mut out))
}
