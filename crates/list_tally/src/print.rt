// What the program writes. An error is one that a write gave.
use crate::letters;
use lists::{Seen, seen};
use std::{fmt, io};

// Where in the call the first difference is.
#[derive(Clone, Copy)]
struct Place(Seen);

impl fmt::Display for Place {
    fn fmt<W: fmt::Write>(&self, f: &mut fmt::Formatter<W>) -> fmt::Result {
        let buffer = self.0.buffer;
        let index = self.0.index;
        match buffer {
            seen::ANSWER => write!(f, "answer"),
            seen::VALUE => write!(f, "value"),
            _ => write!(f, "buffer {buffer}, number {index}"),
        }
    }
}

// A line whose results are not the expected ones: the function's name, with which it begins, how many
// numbers differ, and the first.
pub fn difference(rt: &impl Print, line: u64, s: &[u8], o: Seen) -> io::Result<()> {
    let place = Place(o);
    let differ = o.differ;
    let want = o.want;
    let found = o.found;
    print!(rt; "line {line}: ")?;
    rt.write_all(&s[..letters(s)])?;
    println!(rt; ", {differ} differ, {place}: expected {want:08x}, found {found:08x}")
}

// A line that is no comment and no call.
pub fn bad(rt: &impl Print, line: u64) -> io::Result<()> {
    println!(rt; "line {line}: bad")
}
