// The cards of one line, read, written again and compared.
use crate::compare::{Compared, compare};
use card_cells::Lengths;
use card_edits::{Edit, Range, make};
use lists::Seen;

// The byte that was put into a card that differs, and what its comparison found.
#[derive(Clone, Copy)]
pub struct Difference {
    pub byte: u8,
    pub seen: Seen,
}

// How many cards were compared, how many of them differ, and the first that does.
#[derive(Clone, Copy, Default)]
pub struct Count {
    pub cards: u64,
    pub differ: u64,
    pub first: Option<Difference>,
}

impl Count {
    // One card more, into which this byte was put.
    fn with(self, byte: u8, seen: Seen) -> Count {
        let cards = self.cards.saturating_add(1);
        if seen.differ == 0 {
            return Count { cards, ..self };
        }
        let own = Difference { byte, seen };
        Count {
            cards,
            differ: self.differ.saturating_add(1),
            first: Some(self.first.unwrap_or(own)),
        }
    }
}

// The cards that were read, and those that were written again. And the position behind the words, LOST
// where no card was read.
#[derive(Clone, Copy)]
pub struct Found {
    pub read: Count,
    pub back: Count,
    pub next: usize,
}

// No card yet.
fn nothing() -> Found {
    Found {
        read: Count::default(),
        back: Count::default(),
        next: lines::LOST,
    }
}

impl Found {
    // Whether no card differs.
    pub fn agrees(self) -> bool {
        self.read.differ == 0 && self.back.differ == 0
    }

    // One card more, into which this byte was put.
    fn with(self, byte: u8, c: Compared) -> Found {
        let read = self.read.with(byte, c.read);
        match c.back {
            Some(back) => Found {
                read,
                back: self.back.with(byte, back),
                next: back.next,
            },
            None => Found {
                read,
                next: c.read.next,
                ..self
            },
        }
    }
}

// The byte that the edit puts another in the place of, where it puts one in the place of one.
fn own(base: &[u8], e: Edit) -> Option<u8> {
    if e.skip == 1 {
        base.get(e.at).copied()
    } else {
        None
    }
}

// The card with each byte of the range put in at a position, compared. A byte in its own place is left
// out; a range that does not end at a byte has none.
fn turns(s: &[u8], base: &[u8], e: Edit, range: Range, card: &mut [u8], l: Lengths) -> Found {
    let mut f = nothing();
    let (Ok(low), Ok(high)) = (u8::try_from(range.low), u8::try_from(range.high)) else {
        return f;
    };
    let own = own(base, e);
    for byte in low..=high {
        if own == Some(byte) {
            continue;
        }
        if e.at < card.len() {
            card[e.at] = byte;
        }
        f = f.with(byte, compare(s, e.next, card, l));
    }
    f
}

// Every card of the edit, compared with the line's words behind it.
pub fn replay(s: &[u8], base: &[u8], e: Edit, l: Lengths) -> Found {
    let mut space = [0u8; 12288];
    let Some(len) = make(base, e, &mut space) else {
        return nothing();
    };
    if space.len() < len {
        return nothing();
    }
    let card = &mut space[..len];
    match e.put {
        Some(range) => turns(s, base, e, range, card, l),
        None => nothing().with(0, compare(s, e.next, card, l)),
    }
}
