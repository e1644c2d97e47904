// Words and bytes of a lent memory, read and written at any number: past the end a read gives 0 and a write does nothing.
#![tactic(auto)]

ghost use Rattle.std.specs.Prelude.{◌≡◌, List, ℕ, get_or};
ghost use Rattle.words.specs.Words.{word, set_word};
ghost use Rattle.words.specs.Cells.{read_is};

// What a lent memory is made of: words and bytes.
pub trait Cell: Copy {
    ghost zero: { Self };

    ghost read: { List Self → ℕ → Self };

    fn zero() -> Self
        ensures { result ≡ zero };

    ghost reads: { (m : List Self) (k : ℕ) → read m k ≡ get_or m k zero };
}

impl Cell for u32 {
    ghost zero = { 0 };

    ghost read = { word };

    ghost reads = { read_is };

    fn zero() -> u32 {
        0
    }
}

impl Cell for u8 {
    ghost zero = { 0 };

    ghost read = { word };

    ghost reads = { read_is };

    fn zero() -> u8 {
        0
    }
}

pub fn word<T: Cell>(m: &[T], k: usize) -> T
    ensures { result ≡ T.read m.now k }
{
    // not `get`, `copied` and `unwrap_or`: the test of a whole heap took 1.5 times as long
    if k < m.len() {
        return m[k];
    }
    T::zero()
}

#[tactic(auto, using(crate::proofs::Laws::set_past), unfolding(crate::specs::Words::set_word))]
pub fn set_word<T: Copy>(m: &mut [T], k: usize, v: T)
    ensures { m.new ≡ set_word m.old k v }
{
    // not `get_mut`: its contract doesn't say what the slice is afterwards
    if k < m.len() {
        m[k] = v;
    }
}

pub fn wide(x: u32) -> usize
    ensures { result ≡ x }
{
    x as usize
}
