// The lines of a printed run, written into a lent buffer: what would lie past its end is dropped. Each function answers the position behind what it wrote.
#![tactic(auto)]

ghost use Rattle.std.specs.Prelude.{◌≡◌, ◌++◌, ◌+◌, ◌≤◌, length, take};
ghost use Rattle.framed.specs.Answers.{stop_word};
ghost use Rattle.framed.specs.Framerun.{number, stop_bytes};
ghost use Rattle.printing.specs.Lines.{refused_line, counts_line, end_line, ran_lines, Appends};

use framed::{RunReport, Stop, Totals};

fn append(m: &mut [u8], at: usize, s: &[u8]) -> usize
    requires { at + length s.now ≤ 9000 }
    ensures { Appends m.old at s.now m.new result }
{
    splice::write(m, at, s);
    at + s.len()
}

fn append_number(m: &mut [u8], at: usize, n: u32) -> usize
    requires { at + 11 ≤ 9000 }
    ensures appends { Appends m.old at (number n) m.new result }
    ensures near { result ≤ at + 11 }
{
    let mut bytes = [0u8; 11];
    let start = decimal::digits(&mut bytes, n);
    append(m, at, &bytes[start..])
}

// How a run stopped: the number of its end, or a word.
fn append_stop(m: &mut [u8], at: usize, stop: Stop) -> usize
    requires { at ≤ 4100 }
    ensures appends { Appends m.old at (stop_bytes (stop_word stop)) m.new result }
    ensures near { result ≤ at + 11 }
{
    match stop {
        Stop::Done => append_number(m, at, 0),
        Stop::NoRule => append_number(m, at, 31),
        Stop::DivisorZero => append_number(m, at, 32),
        Stop::IntegerRange => append_number(m, at, 33),
        Stop::TextLength => append_number(m, at, 34),
        Stop::SlotLimit => append_number(m, at, 35),
        Stop::FramesFull => append_number(m, at, 36),
        Stop::TextsFull => append_number(m, at, 37),
        Stop::Fuel => append(m, at, b"fuel"),
        Stop::Output => append(m, at, b"output"),
    }
}

// A word and a number.
fn append_field(m: &mut [u8], at: usize, word: &[u8], n: u32) -> usize
    requires { at + length word.now + 11 ≤ 9000 }
    ensures appends { Appends m.old at (word.now ++ number n) m.new result }
    ensures near { result ≤ at + length word.now + 11 }
{
    let a = append(m, at, word);
    append_number(m, a, n)
}

fn append_counts(m: &mut [u8], at: usize, steps: u32, frames: u32, texts: u32) -> usize
    requires { at ≤ 5000 }
    ensures { Appends m.old at (counts_line steps frames texts) m.new result }
{
    let a = append_field(m, at, b" steps ", steps);
    let b = append_field(m, a, b" frames ", frames);
    let c = append_field(m, b, b" texts ", texts);
    append(m, c, b"\n")
}

// The last line of a run.
fn append_end(m: &mut [u8], at: usize, stop: Stop, steps: u32, frames: u32, texts: u32) -> usize
    requires { at ≤ 4096 }
    ensures { Appends m.old at (end_line (stop_word stop) steps frames texts) m.new result }
{
    let a = append(m, at, b"end ");
    let b = append_stop(m, a, stop);
    append_counts(m, b, steps, frames, texts)
}

// The one line of a refusal, at the front of the buffer.
pub fn print_refused(m: &mut [u8], n: u32) -> usize
    ensures { Appends m.old 0 (refused_line n) m.new result }
{
    let a = append(m, 0, b"refused ");
    let b = append_number(m, a, n);
    append(m, b, b"\n")
}

// The first n bytes, or all where there are fewer.
pub fn front<'a>(m: &'a [u8], n: usize) -> &'a [u8]
    ensures { result.now ≡ take n m.now }
{
    if m.len() < n {
        return m;
    }
    &m[..n]
}

fn append_shows(m: &mut [u8], shown: &[u8; 4096], n: usize) -> usize
    ensures appends { Appends m.old 0 (take n shown.now) m.new result }
    ensures near { result ≤ 4096 }
{
    append(m, 0, front(shown, n))
}

// A whole run, at the front of the buffer: what it showed, and its last line.
pub fn print_ran(m: &mut [u8], shown: &[u8; 4096], report: RunReport, totals: Totals) -> usize
    ensures { Appends m.old 0 (ran_lines shown.now report totals) m.new result }
{
    let n = report.bytes;
    let stop = report.stop;
    let a = append_shows(m, shown, n);
    append_end(m, a, stop, report.steps, totals.frames, totals.texts)
}
