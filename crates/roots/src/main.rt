// Replays a list of square roots from standard input, bit for bit. A line is `aaaaaaaa rrrrrrrr`,
// the bit patterns of an argument and of its root in hexadecimal, or a comment that starts with
// '#'. Writes `N compared, M differ` and `B bad lines`, and before them the first few lines that
// differ, with what was found, and the first few bad ones.
#![tactic(auto)]

mod print;
mod replay;

use refills::read_full;
use std::io;
use std::io::Read;

// Counts the lines that are read into the space, and writes the counts. An input that fills it may have
// been cut off, so that counts as a difference. An error is one of a read or a write.
fn count(rt: &impl Print, input: &mut impl Read, space: &mut [u8]) -> io::Result<()> {
    let n = read_full(input, space)?;
    let t = replay::replay(rt, &space[..n])?;
    if n < space.len() {
        print::counts(rt, t)
    } else {
        print::too_long(rt)?;
        print::counts(rt, t.cut_off())
    }
}

fn main(rt: HostRuntime) -> io::Result<()> {
    let mut space = [0u8; 262144];
    count(&rt, &mut rt.reader(), &mut space)
}
