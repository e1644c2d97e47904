// The collector over heap words: mark what self and program reach, then take everything else out of use.
#![tactic(auto)]

ghost use Rattle.std.specs.Prelude.{◌≡◌, ◌≤◌, length};
ghost use Rattle.heap.specs.Lists.{passing};
ghost use Rattle.heap.specs.Closed.{Closed};
ghost use Rattle.collector.specs.Collect.{sweep_frames, sweep_texts, marked_from, collection, collect_heap};
ghost use Rattle.collector.specs.Collected.{Collected};

use framed::Totals;

// Takes every frame that is not marked out of use.
fn sweep_frames(h: &mut [u32], marks: &[u8; 512])
    ensures { h.new ≡ sweep_frames marks.now h.old }
{
    for f in 0..256u32 {
        if marks[words::wide(f)] == 0 {
            heap::free_frame(h, f);
        }
    }
}

// The same of made texts. It stays beside the one of frames: a contract on a closure that frees one of either would be longer than this loop.
fn sweep_texts(h: &mut [u32], marks: &[u8; 512])
    ensures { h.new ≡ sweep_texts marks.now h.old }
{
    for k in 0..256u32 {
        if marks[256 + words::wide(k)] == 0 {
            heap::free_text(h, k);
        }
    }
}

// How many of the 256 marks from a place on are set.
fn count_marks(marks: &[u8; 512], from: usize) -> u32
    requires { from ≤ 256 }
    ensures { result ≡ length (passing (marked_from marks.now from) 256) }
{
    heap::count(|k| marks[from + k as usize] != 0)
}

// Afterwards exactly what self and program reach is in use; the totals are how much that is, which is how much is marked.
pub fn collect_heap(h: &mut [u32]) -> Totals
    requires { Closed h.old }
    ensures exact { collect_heap h.old ≡ collection result h.new }
    ensures means { Collected h.old h.new result }
{
    let marks = mark::mark(h);
    sweep_frames(h, &marks);
    sweep_texts(h, &marks);
    Totals {
        frames: count_marks(&marks, 0),
        texts: count_marks(&marks, 256),
    }
}
