// The calls of a script: each is made on the same memories, and its answer printed.
#![tactic(auto)]

use framed::{CollectAnswer, LookAnswer, RunAnswer, RunReport, WriteAnswer};
use script::{Call, Script};
use std::io;
use std::rt::Files;
use token::TokenRead;

fn put_refused(rt: &impl Print, n: u32) -> io::Result<()> {
    print_output::put(rt, b"refused ")?;
    print_output::put_number(rt, n)?;
    print_output::put(rt, b"\n")
}

// What cannot be taken is printed behind a `?`.
pub fn put_unfit(rt: &impl Print, text: &[u8]) -> io::Result<()> {
    print_output::put(rt, b"? ")?;
    print_output::put(rt, text)?;
    print_output::put(rt, b"\n")
}

// ---- The calls. A call answers whether the script goes on.

fn put_loaded(rt: &impl Print, number: u32) -> io::Result<()> {
    if number == 0 {
        return print_output::put(rt, b"loaded\n");
    }
    put_refused(rt, number)
}

// A file that cannot be opened or read leaves the memories of an earlier load: so it is named, and no further call is made.
fn load_call<R: Files + Print + Eprint>(
    rt: &R,
    name: &[u8],
    frames: u32,
    texts: u32,
    p: &mut [u32; 16384],
    h: &mut [u32; 16384],
    l: &mut [u8; 8192],
    t: &mut [u8; 16384],
) -> io::Result<bool> {
    let mut source = [0u8; 16385];
    let Some(n) = input::told(rt, name, input::read_file(rt, name, &mut source)) else {
        put_unfit(rt, name)?;
        return Ok(false);
    };
    let answer = load::load(printing::front(&source, n), frames, texts, p, h, l, t);
    put_loaded(rt, answers::load_number(answer))?;
    Ok(true)
}

fn put_stop(rt: &impl Print, number: u32) -> io::Result<()> {
    if number == 1 {
        return print_output::put(rt, b"fuel");
    }
    if number == 2 {
        return print_output::put(rt, b"output");
    }
    print_output::put_number(rt, number)
}

fn put_report(rt: &impl Print, out: &[u8], report: RunReport) -> io::Result<()> {
    let n = report.bytes;
    print_output::put(rt, printing::front(out, n))?;
    print_output::put(rt, b"run ")?;
    let stop = report.stop;
    put_stop(rt, answers::stop_number(stop))?;
    print_output::put(rt, b" steps ")?;
    print_output::put_number(rt, report.steps)?;
    print_output::put(rt, b" bytes ")?;
    print_output::put_size(rt, n)?;
    print_output::put(rt, b"\n")
}

fn run_slice(
    rt: &impl Print,
    p: &[u32; 16384],
    h: &mut [u32; 16384],
    l: &[u8; 8192],
    t: &mut [u8; 16384],
    fuel: u32,
    out: &mut [u8],
) -> io::Result<()> {
    let answer = run::run(p, h, l, t, fuel, out);
    match answer {
        RunAnswer::Stopped(report) => put_report(rt, out, report),
        RunAnswer::NotWellFormed => put_refused(rt, answers::run_number(answer)),
    }
}

// The space of a script's run is at most 4,096.
fn run_call(
    rt: &impl Print,
    p: &[u32; 16384],
    h: &mut [u32; 16384],
    l: &[u8; 8192],
    t: &mut [u8; 16384],
    fuel: u32,
    space: u32,
) -> io::Result<()> {
    let mut out = [0u8; 4096];
    let n = words::wide(space);
    if n <= 4096 {
        run_slice(rt, p, h, l, t, fuel, &mut out[..n])?;
    }
    Ok(())
}

fn collect_call(
    rt: &impl Print,
    p: &[u32; 16384],
    h: &mut [u32; 16384],
    l: &[u8; 8192],
    t: &[u8; 16384],
) -> io::Result<()> {
    let answer = collect::collect(p, h, l, t);
    let CollectAnswer::Collected(totals) = answer else {
        return put_refused(rt, answers::collect_number(answer));
    };
    print_output::put(rt, b"collect frames ")?;
    print_output::put_number(rt, totals.frames)?;
    print_output::put(rt, b" texts ")?;
    print_output::put_number(rt, totals.texts)?;
    print_output::put(rt, b"\n")
}

fn put_integer(rt: &impl Print, n: i32) -> io::Result<()> {
    print_output::put(rt, b"look integer ")?;
    print_output::put_integer(rt, n)?;
    print_output::put(rt, b"\n")
}

fn put_text(rt: &impl Print, text: &[u8]) -> io::Result<()> {
    print_output::put(rt, b"look text ")?;
    print_output::put(rt, text)?;
    print_output::put(rt, b"\n")
}

fn put_frame(rt: &impl Print, maker: u32) -> io::Result<()> {
    print_output::put(rt, b"look frame maker ")?;
    print_output::put_number(rt, maker)?;
    print_output::put(rt, b"\n")
}

fn look_call<'a>(
    rt: &impl Print,
    p: &[u32; 16384],
    h: &[u32; 16384],
    l: &'a [u8; 8192],
    t: &'a [u8; 16384],
    path: &[u8],
) -> io::Result<()> {
    let answer = look::look(p, h, l, t, path);
    match answer {
        LookAnswer::Integer(n) => put_integer(rt, n),
        LookAnswer::Text => put_text(rt, look::look_text(p, h, l, t, path)),
        LookAnswer::Code => print_output::put(rt, b"look code\n"),
        LookAnswer::Frame(maker) => put_frame(rt, maker),
        _ => put_refused(rt, answers::look_number(answer)),
    }
}

fn put_written(rt: &impl Print, text: &[u8]) -> io::Result<()> {
    print_output::put(rt, b"write bytes ")?;
    print_output::put_size(rt, text.len())?;
    print_output::put(rt, b" ")?;
    print_output::put(rt, text)?;
    print_output::put(rt, b"\n")
}

fn write_slice(
    rt: &impl Print,
    p: &[u32; 16384],
    h: &[u32; 16384],
    l: &[u8; 8192],
    t: &[u8; 16384],
    out: &mut [u8],
) -> io::Result<()> {
    let answer = write::write(p, h, l, t, out);
    match answer {
        WriteAnswer::Written(n) => put_written(rt, printing::front(out, n)),
        _ => put_refused(rt, answers::write_number(answer)),
    }
}

// The space of a script's write is at most 32,768.
fn write_call(
    rt: &impl Print,
    p: &[u32; 16384],
    h: &[u32; 16384],
    l: &[u8; 8192],
    t: &[u8; 16384],
    space: u32,
) -> io::Result<()> {
    let mut out = [0u8; 32768];
    let n = words::wide(space);
    if n <= 32768 {
        write_slice(rt, p, h, l, t, &mut out[..n])?;
    }
    Ok(())
}

// ---- The script

// Makes a call, and answers whether the script goes on.
fn make_call<R: Files + Print + Eprint>(
    rt: &R,
    s: &[u8],
    call: Call,
    p: &mut [u32; 16384],
    h: &mut [u32; 16384],
    l: &mut [u8; 8192],
    t: &mut [u8; 16384],
) -> io::Result<bool> {
    match call {
        Call::Load(begin, end, frames, texts) => {
            let name = token::string_bytes(s, begin, end);
            return load_call(rt, name, frames, texts, p, h, l, t);
        }
        Call::Run(fuel, space) => run_call(rt, p, h, l, t, fuel, space)?,
        Call::Collect => collect_call(rt, p, h, l, t)?,
        Call::Look(begin, end) => {
            look_call(rt, p, h, l, t, token::string_bytes(s, begin, end))?;
        }
        Call::Write(space) => write_call(rt, p, h, l, t, space)?,
    }
    Ok(true)
}

// What is to be done where the script has come to it: a complete call is made, a token that does not fit printed.
fn act<R: Files + Print + Eprint>(
    rt: &R,
    s: &[u8],
    script: Script,
    p: &mut [u32; 16384],
    h: &mut [u32; 16384],
    l: &mut [u8; 8192],
    t: &mut [u8; 16384],
) -> io::Result<bool> {
    match script {
        Script::Name => Ok(true),
        Script::Open(_argument) => Ok(true),
        Script::Complete(call) => make_call(rt, s, call, p, h, l, t),
        Script::Unfit(begin, end) => {
            put_unfit(rt, token::token_bytes(s, begin, end))?;
            Ok(true)
        }
    }
}

// At the end of the script: a call that is not complete, from its name on.
fn put_open(rt: &impl Print, s: &[u8], script: Script, call: usize, end: usize) -> io::Result<()> {
    if script::is_open(script) {
        return put_unfit(rt, token::token_bytes(s, call, end));
    }
    Ok(())
}

// Where the call begins that a token belongs to.
fn call_begin(script: Script, call: usize, begin: usize) -> usize {
    if script::is_open(script) {
        return call;
    }
    begin
}

// Makes the calls one after the other.
fn make_calls<R: Files + Print + Eprint>(
    rt: &R,
    s: &[u8],
    p: &mut [u32; 16384],
    h: &mut [u32; 16384],
    l: &mut [u8; 8192],
    t: &mut [u8; 16384],
) -> io::Result<()> {
    let mut script = Script::Name;
    let mut call = 0;
    let mut at = 0;
    while at < s.len() {
        match token::token_at(s, at) {
            TokenRead::End => {
                return put_open(rt, s, script, call, at);
            }
            TokenRead::NoToken => {
                return put_unfit(rt, b"no token");
            }
            TokenRead::Token(kind, begin, end, word) => {
                call = call_begin(script, call, begin);
                script = script::after_token(s, script, kind, begin, end, word);
                if !act(rt, s, script, p, h, l, t)? {
                    return Ok(());
                }
                at = end;
            }
        }
    }
    put_open(rt, s, script, call, at)
}

// Replays a script on cleared memories. One that is too long is refused before any call.
pub fn replay<R: Files + Print + Eprint>(rt: &R, s: &[u8]) -> io::Result<()> {
    if s.len() > 65536 {
        return put_unfit(rt, b"script longer than 65536 bytes");
    }
    let mut p = [0u32; 16384];
    let mut h = [0u32; 16384];
    let mut l = [0u8; 8192];
    let mut t = [0u8; 16384];
    make_calls(rt, s, &mut p, &mut h, &mut l, &mut t)
}
