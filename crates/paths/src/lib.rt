// Paths over the words: a slot by its name, and Fetch along the names of a path. Every function is total.
#![tactic(auto)]

ghost use Rattle.std.specs.Prelude.{◌≡◌, ◌+◌};
ghost use Rattle.framed.specs.Fetch.{get, fetch};
ghost use Rattle.tables.specs.Fields.{path_name};
ghost use Rattle.heap.specs.Held.{slots_held, frames_held};
ghost use Rattle.paths.specs.Paths.{slot_from, fetched, path_held};

use framed::Value;

// The number of the first slot of frame f with the name; none where there is none.
pub fn find_slot(h: &[u32], f: u32, name: u32) -> Option<u32>
    ensures { result ≡ slot_from (slots_held h.now f) name 0 }
{
    let n = heap::slot_count(h, f);
    for i in 0..n {
        if heap::slot_name(h, f, i) == name {
            return Some(i);
        }
    }
    None
}

// One name of a path; none where Fetch is undefined.
pub fn get(h: &[u32], v: Value, name: u32) -> Option<Value>
    ensures { fetched result ≡ get (frames_held h.now) v name }
{
    let Value::Frame(f) = v else {
        return None;
    };
    if 256 <= f {
        return None;
    }
    if !heap::frame_used(h, f) {
        return None;
    }
    let i = find_slot(h, f, name)?;
    Some(heap::slot_value(h, f, i))
}

// The path name i after path name j.
pub fn path_name_after(p: &[u32], j: u32, i: u32) -> u32
    ensures { result ≡ path_name p.now (j + i) }
{
    words::word(p, 2496 + (words::wide(j) + words::wide(i)))
}

// Fetch along the n path names from j on.
pub fn fetch(p: &[u32], h: &[u32], root: Value, j: u32, n: u32) -> Option<Value>
    ensures { fetched result ≡ fetch (frames_held h.now) root (path_held p.now j n) }
{
    let mut v = root;
    for i in 0..n {
        v = get(h, v, path_name_after(p, j, i))?;
    }
    Some(v)
}
