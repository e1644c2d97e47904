// The public call makers: how many of the frames that self and program reach each instruction made, and first how many were made at loading. The four
// memories are only read.
#![tactic(auto)]

ghost use Rattle.std.specs.Prelude.{◌≡◌};
ghost use Rattle.heap.specs.Closed.{Closed};
ghost use Rattle.heap.specs.Words.{maker_at};
ghost use Rattle.mark.specs.Mark.{mark_all};
ghost use Rattle.makers.specs.Makers.{count_for, CanCount, counts_below, MakersFit, counting, makers_call, MakersMeans};

use framed::MakersAnswer;

// Counts the frame f for its maker.
fn count_frame(h: &[u32], f: u32, counts: &mut [u32; 513])
    requires { CanCount h.now f counts.old }
    ensures { counts.new ≡ count_for (maker_at h.now f) counts.old }
{
    let n = words::wide(heap::maker(h, f));
    counts[n] += 1;
}

// Counts each marked frame.
fn count_marked(h: &[u32], marks: &[u8; 512], counts: &mut [u32; 513])
    requires { MakersFit h.now marks.now }
    ensures { counts.new ≡ counts_below h.now marks.now 256 }
{
    *counts = [0u32; 513];
    for f in 0..256u32 {
        if marks[words::wide(f)] != 0 {
            count_frame(h, f, counts);
        }
    }
}

// Counts what self and program reach. Never inlined, so that the marks are not on the stack while the memories are tested.
#[inline(never)]
fn count_reached(h: &[u32], counts: &mut [u32; 513])
    requires closed { Closed h.now }
    requires fit { MakersFit h.now (mark_all h.now) }
    ensures { counts.new ≡ counts_below h.now (mark_all h.now) 256 }
{
    let marks = mark::mark(h);
    count_marked(h, &marks, counts);
}

pub fn makers(p: &[u32], h: &[u32], l: &[u8], t: &[u8], counts: &mut [u32; 513]) -> MakersAnswer
    ensures exact { makers_call p.now h.now l.now t.now counts.old ≡ counting result counts.new }
    ensures meaning { MakersMeans p.now h.now l.now t.now counts.old result counts.new }
{
    if !wellformed::well_formed(p, h, l, t) {
        return MakersAnswer::NotWellFormed;
    }
    count_reached(h, counts);
    MakersAnswer::Counted
}
