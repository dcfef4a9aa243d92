// A card that is made of another: some of its bytes taken out, or a byte put in their place.

// The bytes that are put in their place in turn: each from `low` to `high`.
#[derive(Clone, Copy)]
pub struct Range {
    pub low: u32,
    pub high: u32,
}

// Bytes are taken out from a position on, so many, and where there is a range a byte of it stands in
// their place. And the position behind the words.
#[derive(Clone, Copy)]
pub struct Edit {
    pub at: usize,
    pub skip: usize,
    pub put: Option<Range>,
    pub next: usize,
}

// The edit whose words begin at a position: where and how many, and of a byte that is put in the first
// and the last of its range.
pub fn edit_at(s: &[u8], from: usize, put: bool) -> Edit {
    let at = lines::word_at(s, from);
    let skip = lines::word_at(s, at.next);
    let plain = Edit {
        at: at.bits as usize,
        skip: skip.bits as usize,
        put: None,
        next: skip.next,
    };
    if !put {
        return plain;
    }
    let low = lines::word_at(s, skip.next);
    let high = lines::word_at(s, low.next);
    Edit {
        put: Some(Range {
            low: low.bits,
            high: high.bits,
        }),
        next: high.next,
        ..plain
    }
}

// Copies the bytes into the card from a position on: the position behind them. What the card has no
// room for is left.
fn copy(from: &[u8], card: &mut [u8], at: usize) -> usize {
    if card.len() < at {
        return at;
    }
    let many = from.len().min(card.len() - at);
    card[at..at + many].copy_from_slice(&from[..many]);
    at + many
}

// Makes the card, with no byte put in yet where one has its place: how many bytes it has, or nothing
// where the base has no such bytes to take out.
pub fn make(base: &[u8], e: Edit, card: &mut [u8]) -> Option<usize> {
    let before = base.get(..e.at)?;
    let behind = base.get(e.at..)?.get(e.skip..)?;
    let p = copy(before, card, 0);
    let from = match e.put {
        Some(_) => p.saturating_add(1),
        None => p,
    };
    Some(copy(behind, card, from))
}
