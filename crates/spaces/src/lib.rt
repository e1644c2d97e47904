// Spaces and comments of a source.
#![tactic(auto)]

ghost use Rattle.framed.specs.Bytes.{class};
ghost use Rattle.source.specs.Classified.{Classified};
ghost use Rattle.spaces.specs.Spaces.{CommentEnds, CanSkip, SkipsOne, Skips};

// The position after the line, where a comment ends.
fn comment_end(s: &[u8], at: usize) -> usize
    ensures { CommentEnds class s.now at result }
{
    for i in at..s.len() {
        if s[i] == 10 {
            return i + 1;
        }
    }
    at.max(s.len())
}

// The position after one space or one comment; the position itself where none stands there.
fn skip_one(t: &[u8; 256], s: &[u8], at: usize) -> usize
    requires { CanSkip t.now s.now at }
    ensures { SkipsOne class s.now at result }
{
    let b = source::byte_at(s, at);
    let k = source::class_in(t, b);
    if k == 1 {
        return at + 1;
    }
    if b != 47 {
        return at;
    }
    let d = source::byte_at(s, at + 1);
    if d != 47 {
        return at;
    }
    comment_end(s, at + 1)
}

// The position after spaces and comments.
pub fn skip(t: &[u8; 256], s: &[u8], at: usize) -> usize
    requires { Classified t.now }
    ensures { Skips class s.now at result }
{
    let mut i = at;
    while i < s.len() {
        let j = skip_one(t, s, i);
        if j == i {
            return i;
        }
        i = j;
    }
    i
}
