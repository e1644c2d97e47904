// For each script that the file `index` names: the name, and what its replay prints.
#![tactic(auto)]

use std::io;
use std::rt::Files;

fn replay_file<R: Files + Print + Eprint>(rt: &R, name: &[u8]) -> io::Result<()> {
    let mut script = [0u8; 65537];
    let Some(n) = input::told(rt, name, input::read_file(rt, name, &mut script)) else {
        return Ok(());
    };
    print_output::put(rt, name)?;
    print_output::put(rt, b"\n")?;
    replaying::replay(rt, &script[..n])
}

fn main(rt: HostRuntime) -> io::Result<()> {
    let mut index = [0u8; 65536];
    let Some(n) = input::told(&rt, b"index", input::read_file(&rt, b"index", &mut index)) else {
        return Ok(());
    };
    lines::for_each_line(&index[..n], |name| replay_file(&rt, name))
}
