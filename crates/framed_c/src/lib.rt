// The calls for C and other languages (include/framed.h): answers as numbers, further results through cells that the caller lends. Each function is one
// call of the crate that it names; a refused call leaves the cells as they were.
#![tactic(auto)]

ghost use Rattle.std.specs.Prelude.{◌≡◌};
ghost use Rattle.load.specs.Load.{memories};
ghost use Rattle.framed_c.specs.Load.{LoadsInC};
ghost use Rattle.framed_c.specs.Run.{RunsInC};
ghost use Rattle.framed_c.specs.Collect.{CollectsInC};
ghost use Rattle.framed_c.specs.Look.{integer_cell, maker_cell, LooksInC, LooksTextInC};
ghost use Rattle.framed_c.specs.Write.{WritesInC};
ghost use Rattle.framed_c.specs.Makers.{CountsInC};

use framed::{CollectAnswer, LookAnswer, RunAnswer, WriteAnswer};

#[unsafe(no_mangle)]
pub extern "C" fn framed_load(
    s: &[u8],
    frames: u32,
    texts: u32,
    p: &mut [u32],
    h: &mut [u32],
    l: &mut [u8],
    t: &mut [u8],
) -> u32
    ensures { LoadsInC (memories p.old h.old l.old t.old) s.now frames texts result (memories p.new h.new l.new t.new) }
{
    let a = load::load(s, frames, texts, p, h, l, t);
    answers::load_number(a)
}

#[unsafe(no_mangle)]
pub extern "C" fn framed_run(
    p: &[u32],
    h: &mut [u32],
    l: &[u8],
    t: &mut [u8],
    fuel: u32,
    out: &mut [u8],
    steps: &mut u32,
    bytes: &mut usize,
) -> u32
    ensures { RunsInC p.now h.old l.now t.old fuel out.old steps.old bytes.old result h.new t.new out.new steps.new bytes.new }
{
    let a = run::run(p, h, l, t, fuel, out);
    match a {
        RunAnswer::Stopped(report) => {
            *steps = report.steps;
            *bytes = report.bytes;
            answers::run_number(a)
        }
        RunAnswer::NotWellFormed => answers::run_number(a),
    }
}

#[unsafe(no_mangle)]
pub extern "C" fn framed_collect(
    p: &[u32],
    h: &mut [u32],
    l: &[u8],
    t: &[u8],
    frames: &mut u32,
    texts: &mut u32,
) -> u32
    ensures { CollectsInC p.now h.old l.now t.now frames.old texts.old result h.new frames.new texts.new }
{
    let a = collect::collect(p, h, l, t);
    match a {
        CollectAnswer::Collected(totals) => {
            *frames = totals.frames;
            *texts = totals.texts;
            answers::collect_number(a)
        }
        CollectAnswer::NotWellFormed => answers::collect_number(a),
    }
}

// The cells that look writes: an integer's number, a frame's maker.
fn write_integer(a: LookAnswer, integer: &mut i32)
    ensures { integer.new ≡ integer_cell a integer.old }
{
    let LookAnswer::Integer(n) = a else {
        return;
    };
    *integer = n;
}

fn write_maker(a: LookAnswer, maker: &mut u32)
    ensures { maker.new ≡ maker_cell a maker.old }
{
    let LookAnswer::Frame(n) = a else {
        return;
    };
    *maker = n;
}

#[unsafe(no_mangle)]
pub extern "C" fn framed_look(
    p: &[u32],
    h: &[u32],
    l: &[u8],
    t: &[u8],
    path: &[u8],
    integer: &mut i32,
    maker: &mut u32,
) -> u32
    ensures { LooksInC p.now h.now l.now t.now path.now integer.old maker.old result integer.new maker.new }
{
    let a = look::look(p, h, l, t, path);
    write_integer(a, integer);
    write_maker(a, maker);
    answers::look_number(a)
}

#[unsafe(no_mangle)]
pub extern "C" fn framed_look_text<'a>(
    p: &[u32],
    h: &[u32],
    l: &'a [u8],
    t: &'a [u8],
    path: &[u8],
    out: &mut [u8],
) -> usize
    ensures { LooksTextInC p.now h.now l.now t.now path.now out.old result out.new }
{
    let bytes = look::look_text(p, h, l, t, path);
    splice::write(out, 0, bytes);
    bytes.len()
}

#[unsafe(no_mangle)]
pub extern "C" fn framed_write(
    p: &[u32],
    h: &[u32],
    l: &[u8],
    t: &[u8],
    out: &mut [u8],
    length: &mut usize,
) -> u32
    ensures { WritesInC p.now h.now l.now t.now out.old length.old result out.new length.new }
{
    let a = write::write(p, h, l, t, out);
    let WriteAnswer::Written(n) = a else {
        return answers::write_number(a);
    };
    *length = n;
    answers::write_number(a)
}

#[unsafe(no_mangle)]
pub extern "C" fn framed_makers(
    p: &[u32],
    h: &[u32],
    l: &[u8],
    t: &[u8],
    counts: &mut [u32; 513],
) -> u32
    ensures { CountsInC p.now h.now l.now t.now counts.old result counts.new }
{
    let a = makers::makers(p, h, l, t, counts);
    answers::makers_number(a)
}
