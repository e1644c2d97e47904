// What tokens are made of: runs of bytes, words, and the numbers that digits write.
#![tactic(auto)]

ghost use Rattle.std.specs.Prelude.{◌≡◌, ◌-◌};
ghost use Rattle.framed.specs.Common.{same};
ghost use Rattle.framed.specs.Bytes.{class};
ghost use Rattle.source.specs.Classified.{Classified};
ghost use Rattle.lexeme.specs.Lexemes.{run_test, RunEnds, word_kind, pushed, capped};

// The byte belongs to a run: 0 string bytes, 1 digits, else letters and digits.
fn in_run(t: &[u8; 256], b: u8, m: u8) -> bool
    requires { Classified t.now }
    ensures { result ≡ run_test class m b }
{
    let k = source::class_in(t, b);
    if m == 0 {
        if b < 32 {
            return false;
        }
        if 126 < b {
            return false;
        }
        return b != 34;
    }
    if m == 1 {
        return k == 3;
    }
    if k == 2 {
        return true;
    }
    k == 3
}

// Where a run ends.
pub fn run_end(t: &[u8; 256], s: &[u8], at: usize, m: u8) -> usize
    requires { Classified t.now }
    ensures { RunEnds class s.now m at result }
{
    for i in at..s.len() {
        if !in_run(t, s[i], m) {
            return i;
        }
    }
    at.max(s.len())
}

// Two byte strings are the same.
#[tactic(auto, using(crate::proofs::Same::same_is))]
pub fn is_word(tok: &[u8], w: &[u8]) -> bool
    ensures { result ≡ same tok.now w.now }
{
    tok == w
}

// The kind of a word: a reserved word or a name.
pub fn kind_of_word(w: &[u8]) -> u32
    ensures { result ≡ word_kind w.now }
{
    if is_word(w, b"frame") {
        return 0;
    }
    if is_word(w, b"code") {
        return 28;
    }
    if is_word(w, b"self") {
        return 1;
    }
    if is_word(w, b"show") {
        return 2;
    }
    if is_word(w, b"jump") {
        return 3;
    }
    if is_word(w, b"ifeq") {
        return 4;
    }
    25
}

// One more digit, unless the number is above every integer already.
fn push_digit(n: usize, b: u8) -> usize
    ensures { result ≡ pushed n b }
{
    if 2147483648 < n {
        return n;
    }
    n * 10 + b.saturating_sub(48) as usize
}

// The number that digits write, or some number above every integer where it is one.
pub fn number_of(digits: &[u8]) -> usize
    ensures { result ≡ capped 0 digits.now }
{
    let mut n = 0;
    for i in 0..digits.len() {
        n = push_digit(n, digits[i]);
    }
    n
}
