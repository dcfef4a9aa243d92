// The counts over a whole list, with the first few lines that differ or are bad told.
ghost use Rattle.std.specs.Prelude.{IfOk};
ghost use Rattle.root_list.specs.Replay.{Replayed};

use crate::print;
use root_list::{Line, Tally, agrees, read_line, root_bits};
use std::io;

// Writes a line that differs or is bad, where fewer than five such were found before it. An error is one
// that a write gave.
fn tell(rt: &impl Print, number: u64, l: Line, t: Tally) -> io::Result<()> {
    match l {
        Line::Comment => {}
        Line::Pair(arg, want) => {
            if t.differ < 5 && !agrees(arg, want) {
                print::difference(rt, number, arg, want, root_bits(arg))?;
            }
        }
        Line::Bad => {
            if t.bad < 5 {
                print::bad(rt, number)?;
            }
        }
    }
    Ok(())
}

// The counts over all lines of s, or the error of a write. The last line may lack its newline. The loop
// goes by positions, since `Replayed` speaks of where each line ends; and it begins with counts that are
// written out, since a derived Default promises nothing of them.
pub fn replay(rt: &impl Print, s: &[u8]) -> io::Result<Tally>
    ensures { IfOk result (Replayed s.now) }
{
    let mut t = Tally {
        compared: 0,
        differ: 0,
        bad: 0,
    };
    let mut at: usize = 0;
    let mut number: u64 = 0;
    while at < s.len() {
        let end = lines::line_end(s, at);
        let l = read_line(s, at, end);
        number += 1;
        tell(rt, number, l, t)?;
        t = t.count(l);
        at = end + 1;
    }
    Ok(t)
}
