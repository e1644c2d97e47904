// Put over the words: where its walk ends, whether a slot can be set or added there, and the words with it. Every function is total.
#![tactic(auto)]

ghost use Rattle.std.specs.Prelude.{◌≡◌};
ghost use Rattle.std.proofs.Math.ListN.{get_elem?};
ghost use Rattle.bounded.specs.Check.{slot_end, target_end};
ghost use Rattle.framed.specs.Answers.{end_met};
ghost use Rattle.heap.specs.Held.{frames_held};
ghost use Rattle.paths.specs.Paths.{path_held};
ghost use Rattle.puts.specs.Puts.{targeted, target_along, put_slot};

use framed::{End, Value};

// Where Put ends its walk: the frame number and the last name.
#[derive(Clone, Copy)]
pub struct PutTarget {
    pub frame: u32,
    pub name: u32,
}

// Put's walk along the n path names from j on; none where no rule applies. Most paths have one name, and need no walk.
pub fn put_target(p: &[u32], h: &[u32], root: Value, j: u32, n: u32) -> Option<PutTarget>
    ensures { targeted result ≡ target_along (frames_held h.now) root (path_held p.now j n) }
{
    if n == 0 {
        return None;
    }
    if n == 1 {
        let Value::Frame(frame) = root else {
            return None;
        };
        return Some(PutTarget {
            frame,
            name: paths::path_name_after(p, j, 0),
        });
    }
    let Value::Frame(frame) = paths::fetch(p, h, root, j, n - 1)? else {
        return None;
    };
    Some(PutTarget {
        frame,
        name: paths::path_name_after(p, j, n - 1),
    })
}

// Whether the slot can be set or added: it would be a 17th, or there is no such frame.
pub fn slot_end(h: &[u32], f: u32, name: u32) -> Result<(), End>
    ensures { end_met result ≡ slot_end (get_elem? (frames_held h.now) f) name }
{
    if 256 <= f {
        return Err(End::NoRule);
    }
    if !heap::frame_used(h, f) {
        return Ok(());
    }
    if paths::find_slot(h, f, name).is_some() {
        return Ok(());
    }
    if heap::slot_count(h, f) < 16 {
        return Ok(());
    }
    Err(End::SlotLimit)
}

// The end that Put along the n path names from j on meets.
pub fn put_end(p: &[u32], h: &[u32], root: Value, j: u32, n: u32) -> Result<(), End>
    ensures { end_met result ≡ target_end (frames_held h.now) (target_along (frames_held h.now) root (path_held p.now j n)) }
{
    let at = put_target(p, h, root, j, n).ok_or(End::NoRule)?;
    slot_end(h, at.frame, at.name)
}

// The slot is set, or added behind the others; a frame that has 16 others stays as it is.
pub fn put_slot(h: &mut [u32], f: u32, name: u32, v: Value)
    ensures { h.new ≡ put_slot h.old f name v }
{
    match paths::find_slot(h, f, name) {
        Some(i) => heap::set_slot_value(h, f, i, v),
        None => heap::add_slot(h, f, name, v),
    }
}
