// What a table is written with: words, whole numbers, and numbers with two decimals.
#![tactic(auto)]

use hundredths::in_hundredths;
use std::io;

// Words. An error is one that a write gave, here and below.
pub fn text(rt: &impl Print, words: &[u8]) -> io::Result<()> {
    rt.write_all(words)
}

// The room between two columns.
pub fn gap(rt: &impl Print) -> io::Result<()> {
    text(rt, b"  ")
}

// The number n.
pub fn whole(rt: &impl Print, n: u64) -> io::Result<()> {
    print!(rt; "{n}")
}

// n at the right of five places.
pub fn right(rt: &impl Print, n: u64) -> io::Result<()> {
    print!(rt; "{n:>5}")
}

// v with two decimals.
pub fn plain(rt: &impl Print, v: f32) -> io::Result<()> {
    let Some(h) = in_hundredths(v) else {
        return print!(rt; "?");
    };
    let whole = h / 100;
    let rest = h % 100;
    print!(rt; "{whole}.{rest:02}")
}

// The same at the right of eight places.
pub fn number(rt: &impl Print, v: f32) -> io::Result<()> {
    let Some(h) = in_hundredths(v) else {
        return print!(rt; "       ?");
    };
    let whole = h / 100;
    let rest = h % 100;
    print!(rt; "{whole:>5}.{rest:02}")
}
