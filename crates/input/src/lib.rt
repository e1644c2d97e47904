// Reads a file or standard input to its end, and tells a read that fails from the end.
#![tactic(auto)]

ghost use Rattle.std.specs.Prelude.{◌≡◌, ◌+◌, ◌≤◌, length, IfSome};
ghost use Rattle.std.specs.Result.{result_ok};
ghost use Rattle.input.specs.Counts.{IsPrefixLen};
ghost use Rattle.input.specs.Input.{bytes_read};

use std::fmt::InlineText;
use std::io::{Error, ErrorKind, Read};
use std::rt::Files;
use std::{fs, io, str};

// One read; no bytes at the end of the input.
fn read_some<R: Read>(reader: &mut R, buf: &mut [u8]) -> io::Result<usize>
    ensures { IsPrefixLen (bytes_read result) buf.new }
{
    reader.read(buf)
}

// One read into the buffer from a place on.
fn read_to<R: Read>(reader: &mut R, buf: &mut [u8], from: usize) -> io::Result<usize>
    requires { from ≤ length buf.old }
    ensures { from + bytes_read result ≤ length buf.new }
{
    read_some(reader, &mut buf[from..])
}

// Reads on behind the bytes counted until the input ends, a read fails or the buffer is full. What was read before a failure is counted.
fn fill<R: Read>(reader: &mut R, buf: &mut [u8], count: &mut usize) -> io::Result<()>
    requires { count.old ≤ length buf.old }
    ensures { IsPrefixLen count.new buf.new }
{
    while *count < buf.len() {
        match read_to(reader, buf, *count)? {
            0 => break,
            more => *count += more,
        }
    }
    Ok(())
}

// Reads until the input ends or the buffer is full.
pub fn read_all<R: Read>(reader: &mut R, buf: &mut [u8]) -> io::Result<usize>
    ensures { IsPrefixLen (bytes_read result) buf.new }
{
    let mut count = 0;
    fill(reader, buf, &mut count)?;
    Ok(count)
}

// Opens a file by its name for reading. A name that is not UTF-8 names no file that std can open.
fn open<R: Files>(rt: &R, name: &[u8]) -> io::Result<R::File> {
    let path = str::from_utf8(name).map_err(|_| Error::from(ErrorKind::InvalidFilename))?;
    fs::open(rt, path)
}

// The same of a file by its name; one that cannot be opened counts as a read that failed.
pub fn read_file<R: Files>(rt: &R, name: &[u8], buf: &mut [u8]) -> io::Result<usize>
    ensures { IsPrefixLen (bytes_read result) buf.new }
{
    read_all(&mut open(rt, name)?, buf)
}

// What can be read of a file by its name, where a read that fails counts as the end. None where it cannot be opened, and standard error says why.
pub fn read_opened<R: Files + Eprint>(rt: &R, name: &[u8], buf: &mut [u8]) -> Option<usize>
    ensures { IfSome result (λ n. IsPrefixLen n buf.new) }
{
    let mut file = open(rt, name)
        .inspect_err(|error| fail(rt, name, *error))
        .ok()?;
    let mut count = 0;
    let _ = fill(&mut file, buf, &mut count);
    Some(count)
}

// The count of what was read. None where the read failed, and standard error says of what and why.
pub fn told(rt: &impl Eprint, what: &[u8], read: io::Result<usize>) -> Option<usize>
    ensures { result ≡ result_ok read }
{
    read.inspect_err(|error| fail(rt, what, *error)).ok()
}

// The words of an error, without the system's number of it.
fn reason(text: &str) -> &str {
    text.split_once(" (os error ")
        .map_or(text, |(words, _)| words)
}

// Writes a line to standard error: what failed, as the caller names it, a colon and the reason. Where that cannot be written, nobody is told.
pub fn fail(rt: &impl Eprint, what: &[u8], error: Error) {
    let text = InlineText::<128>::of(error);
    let words = reason(text.as_str());
    let _ = match str::from_utf8(what) {
        Ok(name) => eprintln!(rt; "{name}: {words}"),
        Err(_) => eprintln!(rt; "{}: {words}", what.escape_ascii()),
    };
}
