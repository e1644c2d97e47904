// The printed run of a source (document 01): what the program `framerun` prints for it.
#![tactic(auto)]

ghost use Rattle.std.specs.Prelude.{◌≡◌, take};
ghost use Rattle.framed.specs.Framerun.{framerun};
ghost use Rattle.printing.specs.Lines.{Appends};

use framed::{CollectAnswer, RunAnswer};

// Loads with F = T = 256, runs once with fuel 100000 over 4,096 bytes, collects; the print goes to the front of `out`, what lies past its end is dropped, and
// the answer is how many bytes the print has.
fn write_print(source: &[u8], out: &mut [u8]) -> usize
    ensures { Appends out.old 0 (framerun source.now) out.new result }
{
    let mut p = [0u32; 16384];
    let mut h = [0u32; 16384];
    let mut l = [0u8; 8192];
    let mut t = [0u8; 16384];
    let mut shown = [0u8; 4096];
    let a = load::load(source, 256, 256, &mut p, &mut h, &mut l, &mut t);
    let n = answers::load_number(a);
    if n != 0 {
        return printing::print_refused(out, n);
    }
    let RunAnswer::Stopped(report) = run::run(&p, &mut h, &l, &mut t, 100000, &mut shown) else {
        return 0;
    };
    let CollectAnswer::Collected(totals) = collect::collect(&p, &mut h, &l, &t) else {
        return 0;
    };
    printing::print_ran(out, &shown, report, totals)
}

// The first n bytes of the buffer, or all where there are fewer.
fn front<'a>(out: &'a [u8; 4140], n: usize) -> &'a [u8]
    ensures { result.now ≡ take n out.now }
{
    printing::front(out, n)
}

// The print, as the front part of an array that is long enough for every print.
pub fn print<'a>(source: &[u8], out: &'a mut [u8; 4140]) -> &'a [u8]
    ensures { result.now ≡ framerun source.now }
{
    let n = write_print(source, out);
    front(out, n)
}
