// What the program writes. An error is one that a write gave.
use root_list::Tally;
use std::io;

// A line whose root is not the expected one.
pub fn difference(rt: &impl Print, line: u64, arg: u32, want: u32, found: u32) -> io::Result<()> {
    println!(rt; "line {line}: the root of {arg:08x}: expected {want:08x}, found {found:08x}")
}

// A line that is neither a pair nor a comment.
pub fn bad(rt: &impl Print, line: u64) -> io::Result<()> {
    println!(rt; "line {line}: bad")
}

// An input that may have been cut off.
pub fn too_long(rt: &impl Print) -> io::Result<()> {
    println!(rt; "input too long")
}

// The counts at the end.
pub fn counts(rt: &impl Print, t: Tally) -> io::Result<()> {
    let compared = t.compared;
    let differ = t.differ;
    let bad = t.bad;
    println!(rt; "{compared} compared, {differ} differ\n{bad} bad lines")
}
