// Reserve (document 01: room): whether f more frames and t more made texts fit; where they do not, a collection, and then the same once more. What is known of the numbers
// in use may say at once that they fit; else they are counted.
#![tactic(auto)]

ghost use Rattle.std.specs.Prelude.{◌≡◌};
ghost use Rattle.framed.specs.Answers.{end_met};
ghost use Rattle.heap.specs.Closed.{Closed};
ghost use Rattle.allocation.specs.Known.{FullBelow, TextsFull, Full, Knows};
ghost use Rattle.reserving.specs.Reserving.{added, Reserves, lowest_frame_for, lowest_text_for, sought, CountedTo, TextsCounted, Reckons};

use allocation::Known;
use framed::End;

// The end where there is no room, and what is known then. Where there is room the f frames and t texts are counted in.
#[derive(Clone, Copy)]
pub struct Reserved {
    pub end: Result<(), End>,
    pub known: Known,
}

// The end, if so many are in use: 36 where the frames plus f exceed F, else 37 where the made texts plus t exceed T, else none, and then they are counted in.
fn add(p: &[u32], f: u32, t: u32, k: Known) -> Reserved
    ensures { result ≡ added p.now f t k }
{
    if words::wide(tables::frame_limit(p)) < words::wide(k.frames) + words::wide(f) {
        return Reserved {
            end: Err(End::FramesFull),
            known: k,
        };
    }
    if words::wide(tables::text_limit(p)) < words::wide(k.texts) + words::wide(t) {
        return Reserved {
            end: Err(End::TextsFull),
            known: k,
        };
    }
    Reserved {
        end: Ok(()),
        known: Known {
            frames: k.frames + f,
            texts: k.texts + t,
            ..k
        },
    }
}

// Where frames are to be made, the lowest that is free is looked for once.
fn lowest_frame_for(h: &[u32], f: u32, low: u32) -> u32
    requires { FullBelow h.now low }
    ensures { result ≡ lowest_frame_for h.now f low }
{
    if f == 0 {
        return low;
    }
    allocation::lowest_frame(h, low)
}

// The same of made texts.
fn lowest_text_for(h: &[u32], t: u32, low: u32) -> u32
    requires { TextsFull h.now low }
    ensures { result ≡ lowest_text_for h.now t low }
{
    if t == 0 {
        return low;
    }
    allocation::lowest_text(h, low)
}

// Both.
fn seek(h: &[u32], f: u32, t: u32, r: Reserved) -> Reserved
    requires { Full h.now r.known.low r.known.least }
    ensures { result ≡ sought h.now f t r }
{
    let low = lowest_frame_for(h, f, r.known.low);
    let least = lowest_text_for(h, t, r.known.least);
    Reserved {
        known: Known {
            low,
            least,
            ..r.known
        },
        ..r
    }
}

// How many frames are in use. Where f more do not fit below the limit, it may stop before it has counted all.
fn count_frames(h: &[u32], limit: u32, f: u32) -> u32
    ensures { CountedTo h.now limit f result }
{
    if limit < f {
        return 0;
    }
    let most = limit - f;
    let mut n = 0u32;
    for g in 0..256 {
        if heap::frame_used(h, g) {
            n += 1;
        }
        if most < n {
            return n;
        }
    }
    n
}

// How many made texts are in use. Where f more than so many frames do not fit, that is enough, and none are counted.
fn count_texts(h: &[u32], limit: u32, f: u32, frames: u32) -> u32
    ensures { TextsCounted h.now limit f frames result }
{
    if limit < f || limit - f < frames {
        return 0;
    }
    heap::count_texts(h)
}

// Collects only where there is no room. The end is that which stands then.
pub fn reserve(p: &[u32], h: &mut [u32], f: u32, t: u32, k: Known) -> Reserved
    requires closed { Closed h.old }
    requires knows_2 { Knows h.old 0 0 k }
    ensures exact { Reserves p.now h.old f t (end_met result.end) h.new }
    ensures knows { Reckons h.new f t result }
{
    let a = add(p, f, t, k);
    if a.end.is_ok() {
        return seek(h, f, t, a);
    }
    let limit = tables::frame_limit(p);
    let frames = count_frames(h, limit, f);
    let c = Known {
        frames,
        texts: count_texts(h, limit, f, frames),
        ..k
    };
    let b = add(p, f, t, c);
    if b.end.is_ok() {
        return seek(h, f, t, b);
    }
    let n = collector::collect_heap(h);
    let d = Known {
        frames: n.frames,
        texts: n.texts,
        low: 0,
        least: 0,
    };
    seek(h, f, t, add(p, f, t, d))
}
