// Sums over the tokens of a source, token by token. What is summed is a number:
//   0 expressions, 1 instructions, 2 string literals, 3 code literals
//   4 frames outside code
//   5 `!`, operators, `self` and `^` outside code
//   6 names in paths, and at each first `^` the levels from the program frame down to the frame that holds the code
//   7 further `^` that name a frame, 8 further `^` above the program frame
#![tactic(auto)]

ghost use Rattle.std.specs.Prelude.{◌≡◌};
ghost use Rattle.sums.specs.Weights.{one_if, closed};
ghost use Rattle.sums.specs.Totals.{Room, UpRoom, nothing, Climbs, Counts};

// The nine sums, by what is summed.
#[derive(Clone, Copy, Default)]
pub struct Totals {
    pub expressions: usize,
    pub instructions: usize,
    pub strings: usize,
    pub codes: usize,
    pub frames: usize,
    pub misplaced: usize,
    pub names: usize,
    pub named: usize,
    pub far: usize,
}

// The sums and what they depend on: open `{`, open `[` outside code, further `^` of the path.
#[derive(Clone, Copy, Default)]
pub struct Tally {
    pub totals: Totals,
    pub curly: usize,
    pub square: usize,
    pub further: usize,
}

// 1 outside code, 0 in code.
fn outside(curly: usize) -> usize
    ensures { result ≡ one_if curly 0 }
{
    if curly == 0 { 1 } else { 0 }
}

// How many `[` outside code are open after a `]`.
fn closed(curly: usize, square: usize) -> usize
    ensures { result ≡ closed curly square }
{
    if curly != 0 {
        return square;
    }
    square.saturating_sub(1)
}

// What a `^` adds to the paths, after a token of kind last.
fn up(t: Tally, last: u32) -> Tally
    requires { UpRoom t }
    ensures { Climbs t last result }
{
    let mut r = t;
    let levels = t.square.saturating_sub(1);
    if last != 7 {
        r.totals.names += levels;
        r.further = 0;
        return r;
    }
    r.further += 1;
    if t.further < levels {
        r.totals.named += 1;
        r
    } else {
        r.totals.far += 1;
        r
    }
}

// The tally after a token of kind k, after one of kind last.
pub fn count(t: Tally, last: u32, k: u32) -> Tally
    requires { Room t }
    ensures { Counts t last k result }
{
    let mut r = t;
    match k {
        1 => {
            r.totals.misplaced += outside(t.curly);
            r
        }
        2 => {
            r.totals.expressions += 1;
            r
        }
        3 => {
            r.totals.expressions += 2;
            r
        }
        4 => {
            r.totals.expressions += 3;
            r
        }
        6 => {
            r.totals.expressions += 1;
            r
        }
        8 => {
            r.totals.misplaced += outside(t.curly);
            up(r, last)
        }
        9 => {
            r.totals.expressions += 1;
            r.totals.misplaced += outside(t.curly);
            r
        }
        10 => {
            r.totals.instructions += 1;
            r
        }
        12 => {
            let o = outside(t.curly);
            r.totals.frames += o;
            r.square += o;
            r
        }
        13 => {
            r.square = closed(t.curly, t.square);
            r
        }
        14 => {
            r.curly += 1;
            r
        }
        15 => {
            r.curly = t.curly.saturating_sub(1);
            r
        }
        16..=24 => {
            r.totals.expressions += 2;
            r.totals.misplaced += outside(t.curly);
            r
        }
        25 => {
            if last == 7 {
                r.totals.names += 1;
            }
            r
        }
        27 => {
            r.totals.strings += 1;
            r
        }
        28 => {
            r.totals.codes += 1;
            r
        }
        _ => r,
    }
}

// No token has come.
#[tactic(auto, unfolding(crate::specs::Totals::nothing))]
pub fn nothing() -> Tally
    ensures { result ≡ nothing }
{
    Tally::default()
}
