// Replays a list of calls and answers from standard input against the filter's functions, bit for
// bit, any NaN equal to any other. The lists are those of the oracle (oracle/FORMAT.md). Writes
// `C calls, N numbers compared, D differ` and `B bad lines`, and before them the first ten lines that
// differ or are bad. A bad line counts as a difference too.
#![tactic(auto)]

mod line;
mod tally;

use list_tally::tally::Tally;
use std::io;

fn main(rt: HostRuntime) -> io::Result<()> {
    let mut space = [0u8; 131072];
    let mut t = Tally::default();
    refills::feed(&mut rt.reader(), &mut space, |s| {
        t = tally::add_lines(&rt, t, s)?;
        Ok(())
    })?;
    println!(rt; "{t}")
}
