// The public call run. Heap words, text bytes and the output buffer are lent to be written, program words and literal bytes only to be read.
#![tactic(auto)]

ghost use Rattle.std.specs.Prelude.{◌≡◌};
ghost use Rattle.wellformed.specs.WellFormed.{Formed};
ghost use Rattle.run.specs.Run.{running, run_call, RunMeans};
ghost use Rattle.run.specs.Loop.{stop_after, Runs};

use allocation::Known;
use framed::{RunAnswer, RunReport, Stop};
use step_parts::Outcome;

// The stop after a step that was not made.
fn stop_after(o: Outcome) -> Stop
    ensures { result ≡ stop_after o }
{
    match o {
        Outcome::Ended(e) => stops::stop_of(e),
        Outcome::NoSpace => Stop::Output,
        Outcome::Made(_n) => Stop::Fuel,
    }
}

// What is known of the numbers in use in any words.
fn nothing_known() -> Known
    ensures { result ≡ record { frames = 256; texts = 256; low = 0; least = 0 } }
{
    Known {
        frames: 256,
        texts: 256,
        low: 0,
        least: 0,
    }
}

// Step after step, until the first stop.
fn run_steps(
    p: &[u32],
    l: &[u8],
    h: &mut [u32],
    t: &mut [u8],
    fuel: u32,
    out: &mut [u8],
) -> RunReport
    requires { Formed p.now l.now h.old t.old }
    ensures { Runs p.now l.now fuel h.old t.old out.old result h.new t.new out.new }
{
    let mut steps = 0u32;
    let mut used = 0usize;
    let mut known = nothing_known();
    while steps < fuel {
        let e = heap::end_mark(h);
        if e != 0 {
            return RunReport {
                stop: stops::stop_of(e),
                steps: steps,
                bytes: used,
            };
        }
        let z = heap::position(h);
        if z == 0 {
            return RunReport {
                stop: Stop::Done,
                steps: steps,
                bytes: used,
            };
        }
        let a = step::attempt(p, l, h, t, z - 1, out, used, known);
        let o = a.outcome;
        let Outcome::Made(n) = o else {
            return RunReport {
                stop: stop_after(o),
                steps: steps,
                bytes: used,
            };
        };
        used += n;
        steps += 1;
        known = a.known;
    }
    RunReport {
        stop: stops::stop_here(h),
        steps: steps,
        bytes: used,
    }
}

pub fn run(p: &[u32], h: &mut [u32], l: &[u8], t: &mut [u8], fuel: u32, out: &mut [u8]) -> RunAnswer
    ensures exact { run_call p.now h.old l.now t.old fuel out.old ≡ running result h.new t.new out.new }
    ensures meaning { RunMeans p.now h.old l.now t.old fuel out.old result h.new t.new out.new }
{
    if !wellformed::well_formed(p, h, l, t) {
        return RunAnswer::NotWellFormed;
    }
    RunAnswer::Stopped(run_steps(p, l, h, t, fuel, out))
}
