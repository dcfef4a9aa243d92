// A card that is read, and written again where it is taken, compared with what a line expects.
use answers::Refusal;
use card_back::{Model, write_again};
use card_cells::{Lengths, cells_met, lend};
use lists::{Seen, seen};

// The buffer's number in Seen where what differs is a size.
pub const SIZES: usize = 102;

// What reading said: its code and, where the card is taken, both sizes.
#[derive(Clone, Copy)]
pub struct Reading {
    pub code: usize,
    pub n: usize,
    pub m: usize,
}

fn said_by(c: Result<(usize, usize), Refusal>) -> Reading {
    match c {
        Ok((n, m)) => Reading {
            code: 0,
            n: n,
            m: m,
        },
        Err(why) => Reading {
            code: c_codes::code_of(Err(why)),
            n: 0,
            m: 0,
        },
    }
}

// The code and, where the line expects 0, both sizes against the words at a position.
fn said_met(s: &[u8], at: usize, d: Reading) -> Seen {
    let o = seen::whole_met(s, seen::nothing(at), seen::ANSWER, 0, d.code);
    let w = lines::word_at(s, at);
    if w.bits != 0 {
        return o;
    }
    let n = seen::whole_met(s, o, SIZES, 0, d.n);
    seen::whole_met(s, n, SIZES, 1, d.m)
}

// How many entries a matrix of these sizes has. Sizes above 16 are none that a list has: with none of
// their entries read the line does not come to its end.
fn times(rows: u32, cols: u32) -> usize {
    if 16 < rows || 16 < cols {
        return 0;
    }
    (rows * cols) as usize
}

// How many entries of A and of Q, of H and of R a line has.
#[derive(Clone, Copy, Default)]
pub struct Entries {
    pub a: usize,
    pub h: usize,
    pub r: usize,
}

// What the words at a position say of that: nothing where they expect a refusal.
fn entries_at(s: &[u8], at: usize) -> Option<Entries> {
    let w = lines::word_at(s, at);
    if w.bits != 0 {
        return None;
    }
    let n = lines::word_at(s, w.next);
    let m = lines::word_at(s, n.next);
    Some(Entries {
        a: times(n.bits, n.bits),
        h: times(m.bits, n.bits),
        r: times(m.bits, m.bits),
    })
}

// What comparing a card found: of reading it and, where the line expects that it is taken, of writing it
// again.
#[derive(Clone, Copy)]
pub struct Compared {
    pub read: Seen,
    pub back: Option<Seen>,
}

// Reads the card into buffers of these lengths: what the comparison with the words at a position
// finds, of the code, of both sizes and of each number of the four buffers. And where they expect that
// it is taken, writes the matrices again: what that finds.
pub fn compare(s: &[u8], at: usize, card: &[u8], l: Lengths) -> Compared {
    let mut a = lend(0, l.a);
    let mut q = lend(1, l.q);
    let mut h = lend(2, l.h);
    let mut r = lend(3, l.r);
    let c = cards::read(
        card,
        a.numbers_mut(),
        q.numbers_mut(),
        h.numbers_mut(),
        r.numbers_mut(),
    );
    let d = said_by(c);
    let o = said_met(s, at, d);
    let taken = entries_at(s, at);
    let k = taken.unwrap_or_default();
    let o1 = cells_met(s, o, 0, k.a, a.numbers());
    let o2 = cells_met(s, o1, 1, k.a, q.numbers());
    let o3 = cells_met(s, o2, 2, k.h, h.numbers());
    let read = cells_met(s, o3, 3, k.r, r.numbers());
    if taken.is_none() {
        return Compared { read, back: None };
    }
    let model = Model {
        states: d.n,
        observations: d.m,
        a: a.numbers(),
        q: q.numbers(),
        h: h.numbers(),
        r: r.numbers(),
    };
    Compared {
        read,
        back: Some(write_again(s, read.next, card, model)),
    }
}
