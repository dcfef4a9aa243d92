// The lines of a list, one after the other.
use card_cells::{Lengths, lengths_at};
use card_edits::{edit_at, unpack};
use card_list::replay;
use card_tally::print;
use card_tally::tally::Tally;
use std::io;

// The counts so far, how many bytes the card has that stands in the base, where there is one, and how long
// the buffers are.
#[derive(Clone, Copy)]
pub struct Cases {
    pub t: Tally,
    pub len: Option<usize>,
    pub l: Lengths,
}

// No line yet, an empty card and empty buffers.
pub fn start() -> Cases {
    Cases {
        t: Tally::default(),
        len: Some(0),
        l: Lengths::default(),
    }
}

// The counts with a bad line more, or the error of a write, here and below.
fn bad(rt: &impl Print, t: Tally) -> io::Result<Tally> {
    if t.told < 10 {
        print::bad(rt, t.lines.saturating_add(1))?;
    }
    Ok(t.bad().tell())
}

// A line that holds a card, which is put into the base. Behind a bad one there is no card.
fn card_line(rt: &impl Print, v: Cases, s: &[u8], base: &mut [u8]) -> io::Result<Cases> {
    let w = lines::word_at(s, 1);
    let len = w.bits as usize;
    if unpack(s, w.next, len, base) == s.len() {
        return Ok(Cases {
            t: v.t.line(),
            len: Some(len),
            ..v
        });
    }
    Ok(Cases {
        t: bad(rt, v.t)?,
        len: None,
        ..v
    })
}

// A line that holds the lengths of the buffers.
fn lengths_line(rt: &impl Print, v: Cases, s: &[u8]) -> io::Result<Cases> {
    let l = lengths_at(s, 1);
    let t = if l.next == s.len() {
        v.t.line()
    } else {
        bad(rt, v.t)?
    };
    Ok(Cases { t, l, ..v })
}

// The counts with a line of cards more, of which the first ten that differ or are bad are written.
fn edit_line(rt: &impl Print, v: Cases, s: &[u8], put: bool, base: &[u8]) -> io::Result<Tally> {
    let t = v.t;
    let Some(len) = v.len else {
        return bad(rt, t);
    };
    if base.len() < len {
        return bad(rt, t);
    }
    let f = replay(s, &base[..len], edit_at(s, 1, put), v.l);
    if f.next != s.len() {
        return bad(rt, t);
    }
    if f.agrees() {
        return Ok(t.cards(f));
    }
    if t.told < 10 {
        print::difference(rt, t.lines.saturating_add(1), f)?;
    }
    Ok(t.cards(f).tell())
}

// The same with what else the line may be.
fn add_line(rt: &impl Print, v: Cases, s: &[u8], base: &mut [u8]) -> io::Result<Cases> {
    let t = match lines::byte_at(s, 0) {
        b'c' => return card_line(rt, v, s, base),
        b'b' => return lengths_line(rt, v, s),
        b'#' => v.t.line(),
        b'x' => edit_line(rt, v, s, false, base)?,
        b'p' => edit_line(rt, v, s, true, base)?,
        _ => bad(rt, v.t)?,
    };
    Ok(Cases { t, ..v })
}

// The counts with all lines of s more. The last line may lack its newline. The loop goes by positions, since
// `LineEnd`, which holds where a line ends, speaks of them.
pub fn add_lines(rt: &impl Print, v: Cases, s: &[u8], base: &mut [u8]) -> io::Result<Cases> {
    let mut all = v;
    let mut at: usize = 0;
    while at < s.len() {
        let end = lines::line_end(s, at);
        all = add_line(rt, all, &s[at..end], base)?;
        at = end + 1;
    }
    Ok(all)
}
