// The counts over a list, line after line.
use crate::line;
use list_tally::print;
use list_tally::tally::Tally;
use std::io;

// The counts with a line more, of which the first ten that differ or are bad are written. An error is one
// that a write gave, here and below.
pub fn add_line(rt: &impl Print, t: Tally, s: &[u8]) -> io::Result<Tally> {
    if lines::byte_at(s, 0) == b'#' {
        return Ok(t.comment());
    }
    let o = line::compare(s);
    if o.next != s.len() {
        if t.told < 10 {
            print::bad(rt, t.lines.saturating_add(1))?;
        }
        return Ok(t.bad().tell());
    }
    if o.differ == 0 {
        return Ok(t.call(o));
    }
    if t.told < 10 {
        print::difference(rt, t.lines.saturating_add(1), s, o)?;
    }
    Ok(t.call(o).tell())
}

// The counts with all lines of s more. The last line may lack its newline. The loop goes by positions, since
// `LineEnd`, which holds where a line ends, speaks of them.
pub fn add_lines(rt: &impl Print, t: Tally, s: &[u8]) -> io::Result<Tally> {
    let mut all = t;
    let mut at: usize = 0;
    while at < s.len() {
        let end = lines::line_end(s, at);
        all = add_line(rt, all, &s[at..end])?;
        at = end + 1;
    }
    Ok(all)
}
