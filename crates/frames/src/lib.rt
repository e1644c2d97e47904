// Number 8, token by token: whether some frame has a name twice or more than 16 slots. Each open bracket has a level: the number of its slots, and their names by number.
#![tactic(auto)]

ghost use Rattle.std.specs.Prelude.{◌≡◌};
ghost use Rattle.framed.specs.Common.{member};
ghost use Rattle.frames.specs.Levels.{level, Room, Adds, Opens, Watches};

// Name j is one of the n names from `from` on.
fn has_name(own: &[u32; 306], from: usize, n: usize, j: u32) -> bool
    requires { Room from n }
    ensures { result ≡ member j (level own.now from n) }
{
    let mut k = n;
    while 0 < k {
        k -= 1;
        if own[from + k] == j {
            return true;
        }
    }
    false
}

// Name j is a slot's: it is put behind the names of its level. False where it is one of them, where the level has 16, and where there is no such level or name.
fn add_name(counts: &mut [usize; 18], own: &mut [u32; 306], depth: usize, j: u32) -> bool
    ensures { Adds counts.old own.old depth j counts.new own.new result }
{
    if 17 < depth {
        return false;
    }
    if 128 < j {
        return false;
    }
    let n = counts[depth];
    if 15 < n {
        return false;
    }
    let from = depth * 17;
    if has_name(own, from, n, j) {
        return false;
    }
    own[from + n] = j;
    counts[depth] = n + 1;
    true
}

// A bracket is opened: its level has no slots. False where there is no such level.
fn open_level(counts: &mut [usize; 18], depth: usize) -> bool
    ensures { Opens counts.old depth counts.new result }
{
    if 17 <= depth {
        return false;
    }
    counts[depth + 1] = 0;
    true
}

// Whether no bracket has a name twice or more than 16 slots after a token of kind k, after one of kind `last`, where it was `clean` and `depth` brackets open before it.
// j is the number of the name, where the token is one. Level d of `counts` and `own` is that of the d-th open bracket, with 17 places in `own`.
pub fn watch(
    counts: &mut [usize; 18],
    own: &mut [u32; 306],
    clean: bool,
    depth: usize,
    last: u32,
    k: u32,
    j: u32,
) -> bool
    ensures { Watches counts.old own.old clean depth last k j counts.new own.new result }
{
    if k < 12 {
        return clean;
    }
    if 25 < k {
        return clean;
    }
    if !clean {
        return false;
    }
    if k == 25 {
        if last == 7 {
            return true;
        }
        return add_name(counts, own, depth, j);
    }
    if k == 12 {
        return open_level(counts, depth);
    }
    if k == 14 {
        return open_level(counts, depth);
    }
    true
}
