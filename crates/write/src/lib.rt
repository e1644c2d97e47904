// The public call write: the program as Framed text, in a lent buffer. The four memories are only read.
#![tactic(auto)]

ghost use Rattle.std.specs.Prelude.{◌≡◌};
ghost use Rattle.framed.specs.Writer.{text};
ghost use Rattle.trees.specs.Held.{program_held};
ghost use Rattle.write.specs.Write.{writing, text_written, write_call, CanWriteThrough, WriteMeans};

use framed::WriteAnswer;

// The text is written to an array of our own first, so that nothing is written where it does not fit. Where it is longer than that array it has been measured
// there, and is written a second time.
fn write_through(p: &[u32], l: &[u8], own: &mut [u8], out: &mut [u8]) -> WriteAnswer
    requires { CanWriteThrough p.now l.now out.old }
    ensures { text_written (text (program_held p.now l.now)) out.old ≡ writing result out.new }
{
    let limit = out.len();
    let size = limit.min(own.len());
    let n = write_program::program_text(p, l, &mut own[..size], limit);
    if limit < n {
        return WriteAnswer::ShortBuffer;
    }
    if n <= size {
        splice::write(out, 0, &own[..n]);
        return WriteAnswer::Written(n);
    }
    write_program::program_text(p, l, out, limit);
    WriteAnswer::Written(n)
}

pub fn write(p: &[u32], h: &[u32], l: &[u8], t: &[u8], out: &mut [u8]) -> WriteAnswer
    ensures exact { write_call p.now h.now l.now t.now out.old ≡ writing result out.new }
    ensures meaning { WriteMeans p.now h.now l.now t.now out.old result out.new }
{
    if !wellformed::well_formed(p, h, l, t) {
        return WriteAnswer::NotWellFormed;
    }
    let mut own = [0u8; 16384];
    write_through(p, l, &mut own, out)
}
