//! The names kept of a source, lent together.

// Where each name begins and ends, the hints by hash, and how many names there are.
#[derive(Clone, Copy)]
pub struct NameTable<'a> {
    pub begins: &'a [usize],
    pub ends: &'a [usize],
    pub hints: &'a [u8; 4096],
    pub count: u32,
}
