// What the program writes. An error is one that a write gave.
use card_bytes::{CODE, LENGTH};
use card_list::{Count, Difference, Found, SIZES};
use lists::{Seen, seen};
use std::io;

// The first difference of a card that was read: where it is, what was expected and what was found.
fn first_read(rt: &impl Print, o: Seen) -> io::Result<()> {
    let buffer = o.buffer;
    let index = o.index;
    let want = o.want;
    let found = o.found;
    match buffer {
        seen::ANSWER => println!(rt; "code: expected {want}, found {found}"),
        SIZES => println!(rt; "size {index}: expected {want}, found {found}"),
        _ => println!(rt;
            "buffer {buffer}, number {index}: expected {want:08x}, found {found:08x}"
        ),
    }
}

// The same of a card that was written again.
fn first_back(rt: &impl Print, o: Seen) -> io::Result<()> {
    let index = o.index;
    let want = o.want;
    let found = o.found;
    match o.buffer {
        CODE => print!(rt; "code")?,
        LENGTH => print!(rt; "length")?,
        _ => print!(rt; "position {index}")?,
    }
    println!(rt; ": expected {want}, found {found}")
}

// How many cards of a line differ, and the byte that was put into the first.
fn head(rt: &impl Print, line: u64, c: Count, words: &str, first: Difference) -> io::Result<()> {
    let differ = c.differ;
    let byte = first.byte;
    print!(rt; "line {line}: {differ} {words}, the first with byte {byte}, ")
}

// A line of which cards differ: how many were read otherwise and how many written otherwise, and the first
// of each.
pub fn difference(rt: &impl Print, line: u64, f: Found) -> io::Result<()> {
    if let Some(first) = f.read.first {
        head(rt, line, f.read, "differ", first)?;
        first_read(rt, first.seen)?;
    }
    if let Some(first) = f.back.first {
        head(rt, line, f.back, "differ written again", first)?;
        first_back(rt, first.seen)?;
    }
    Ok(())
}

// A line that is none of a list.
pub fn bad(rt: &impl Print, line: u64) -> io::Result<()> {
    println!(rt; "line {line}: bad")
}
