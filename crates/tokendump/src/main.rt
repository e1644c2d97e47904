// Writes the tokens of each source that its arguments name: kind, begin, end, bytes and, of an integer, the number; then the number
// that refuses the source as tokens, or 0.
#![tactic(auto)]

use framed::LoadRefusal;
use std::env::FillError;
use std::io;
use std::rt::{Env, Files};
use token::TokenRead;

fn write_token(
    rt: &impl Print,
    s: &[u8],
    kind: u32,
    begin: usize,
    end: usize,
    word: u32,
) -> io::Result<()> {
    print_output::put_number(rt, kind)?;
    print_output::put(rt, b" ")?;
    print_output::put_size(rt, begin)?;
    print_output::put(rt, b" ")?;
    print_output::put_size(rt, end)?;
    print_output::put(rt, b" ")?;
    let bytes = token::token_bytes(s, begin, end);
    print_output::put(rt, bytes)?;
    if kind == 26 {
        print_output::put(rt, b" ")?;
        print_output::put_integer(rt, ints::int_of(word))?;
    }
    print_output::put(rt, b"\n")
}

// The tokens of a source, up to its end or to bytes that form none.
fn write_tokens(rt: &impl Print, s: &[u8]) -> io::Result<()> {
    let t = source::classes();
    let mut at = 0;
    while at < s.len() {
        let next = reader::token_from(&t, s, at);
        let token = next.token;
        match token {
            TokenRead::End => {
                return Ok(());
            }
            TokenRead::NoToken => {
                return print_output::put(rt, b"no token\n");
            }
            TokenRead::Token(kind, begin, end, word) => {
                write_token(rt, s, kind, begin, end, word)?;
                at = next.at;
            }
        }
    }
    Ok(())
}

// Whether the source is refused as tokens, and why.
fn tokens_refused(s: &[u8]) -> Result<(), LoadRefusal> {
    if 16384 < s.len() {
        return Err(LoadRefusal::SourceLength);
    }
    let mut c = [0u64; 16384];
    let mut begins = [0usize; 129];
    let mut ends = [0usize; 129];
    let mut hints = [0u8; 4096];
    let mut places = [0usize; 129];
    let found = survey::survey(&mut c, s, &mut begins, &mut ends, &mut hints, &mut places);
    found.refusal
}

// The number that refuses a source as tokens, or 0.
fn refused(s: &[u8]) -> u32 {
    match tokens_refused(s) {
        Ok(()) => 0,
        Err(refusal) => answers::load_refusal_number(refusal),
    }
}

fn dump_source(rt: &impl Print, path: &[u8], s: &[u8]) -> io::Result<()> {
    print_output::put(rt, path)?;
    print_output::put(rt, b"\n")?;
    write_tokens(rt, s)?;
    print_output::put(rt, b"refused ")?;
    print_output::put_number(rt, refused(s))?;
    print_output::put(rt, b"\n")
}

fn dump<R: Files + Print + Eprint>(rt: &R, path: &[u8]) -> io::Result<()> {
    let mut buf = [0u8; 65536];
    let Some(n) = input::read_opened(rt, path, &mut buf) else {
        return Ok(());
    };
    dump_source(rt, path, &buf[..n])
}

// Whether there is such an argument. One that is too long for a path counts as empty.
fn dump_argument<R: Env + Files + Print + Eprint>(rt: &R, i: usize) -> io::Result<bool> {
    let mut path = [0u8; 4096];
    let n = match rt.arg(i, &mut path) {
        Ok(n) => n,
        Err(FillError::TooLong) => 0,
        Err(FillError::NotPresent) => return Ok(false),
    };
    dump(rt, &path[..n])?;
    Ok(true)
}

fn main(rt: HostRuntime) -> io::Result<()> {
    for i in 1..usize::MAX {
        if !dump_argument(&rt, i)? {
            break;
        }
    }
    Ok(())
}
