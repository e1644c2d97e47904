// Replays a script from standard input: makes its calls one after the other and prints each answer. README has the calls.
#![tactic(auto)]

use std::io;

fn main(rt: HostRuntime) -> io::Result<()> {
    let mut script = [0u8; 65537];
    let read = input::read_all(&mut rt.stdin(), &mut script);
    let Some(n) = input::told(&rt, b"standard input", read) else {
        return replaying::put_unfit(&rt, b"standard input");
    };
    replaying::replay(&rt, &script[..n])
}
