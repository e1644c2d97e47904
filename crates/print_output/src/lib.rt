// What the programs print: bytes, numbers and integers, to standard output.
#![tactic(auto)]

use std::io;

pub fn put(rt: &impl Print, text: &[u8]) -> io::Result<()> {
    rt.write_all(text)
}

// The decimal digits of a number. By `decimal`, and not by Display: docs/DECISIONS.md, A2, "The one function".
pub fn put_number(rt: &impl Print, n: u32) -> io::Result<()> {
    let mut bytes = [0u8; 11];
    let start = decimal::digits(&mut bytes, n);
    put(rt, &bytes[start..])
}

// The same of a size; those that are printed are numbers of 32 bits.
pub fn put_size(rt: &impl Print, n: usize) -> io::Result<()> {
    match u32::try_from(n) {
        Ok(n) => put_number(rt, n),
        Err(_) => put(rt, b"above 4294967295"),
    }
}

// The decimal integer, with the sign of a negative one.
pub fn put_integer(rt: &impl Print, n: i32) -> io::Result<()> {
    let mut bytes = [0u8; 11];
    let start = decimal::decimal(&mut bytes, n);
    put(rt, &bytes[start..])
}
