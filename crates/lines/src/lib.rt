// The lines of a text, as of a list of file names.
#![tactic(auto)]

ghost use Rattle.std.specs.Prelude.{Ok, OnOk};
ghost use Rattle.std.specs.Fn.{FnReturnsAt};
ghost use Rattle.lines.specs.Lines.{LineEnds, EachLine};

// Where the line that begins there ends: before byte 10, or at the end of the text.
pub fn line_end(text: &[u8], at: usize) -> usize
    ensures { LineEnds text.now at result }
{
    let mut i = at;
    while i < text.len() {
        if text[i] == 10 {
            return i;
        }
        i += 1;
    }
    i
}

// Calls with each line, in order, up to the first error; no line begins at the end of the text.
pub fn for_each_line<E, F: Fn(&[u8]) -> Result<(), E>>(text: &[u8], f: F) -> Result<(), E>
    requires { F.IsAlwaysCallable f }
    ensures { OnOk result (EachLine (λ line. FnReturnsAt F.Fn f line (Ok tt)) text.now) }
{
    let mut at = 0;
    while at < text.len() {
        let end = line_end(text, at);
        f(&text[at..end])?;
        at = end + 1;
    }
    Ok(())
}
