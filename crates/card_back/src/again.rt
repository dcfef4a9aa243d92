// A card that is written again, compared with what a line expects.
use answers::Refusal;
use card_bytes::{expect, lend_bytes, written_met};
use lists::{Seen, seen};

// A model as its card has it: how many states and observations, and the matrices.
#[derive(Clone, Copy)]
pub struct Model<'a> {
    pub states: usize,
    pub observations: usize,
    pub a: &'a [f32],
    pub q: &'a [f32],
    pub h: &'a [f32],
    pub r: &'a [f32],
}

// What writing said: its code and, where the card is written, its length.
#[derive(Clone, Copy)]
pub struct Writing {
    pub code: usize,
    pub length: usize,
}

fn said_by(w: Result<usize, Refusal>) -> Writing {
    match w {
        Ok(l) => Writing { code: 0, length: l },
        Err(why) => Writing {
            code: c_codes::code_of(Err(why)),
            length: 0,
        },
    }
}

// Writes the model's card into the bytes, which are lent first: what the comparison finds.
fn write_met(o: Seen, text: &[u8], m: Model<'_>, bytes: &mut [u8]) -> Seen {
    lend_bytes(bytes);
    let w = said_by(cards::write(m.states, m.observations, m.a, m.q, m.h, m.r, bytes));
    written_met(o, text, w.code, w.length, bytes)
}

// The same of so many bytes, at most 9,280; with more the line is lost.
fn write_into(o: Seen, text: &[u8], lent: usize, m: Model<'_>) -> Seen {
    let mut space = [0u8; 9280];
    if space.len() < lent {
        return seen::nothing(lines::LOST);
    }
    write_met(o, text, m, &mut space[..lent])
}

// Writes the card three times: into more bytes than the text has, into as many, and into one less.
// No card has more than 9,260: with more, or with none, the line is lost.
fn thrice(o: Seen, text: &[u8], m: Model<'_>) -> Seen {
    let len = text.len();
    if len == 0 || 9260 < len {
        return seen::nothing(lines::LOST);
    }
    let longer = write_into(o, text, len + 20, m);
    let exact = write_into(longer, text, len, m);
    write_into(exact, text, len - 1, m)
}

// Writes the model: what the comparison with the card and with the words at a position finds. With a card
// of more than 9,260 bytes the line is lost.
pub fn write_again(s: &[u8], at: usize, card: &[u8], m: Model<'_>) -> Seen {
    let mut space = [0u8; 9260];
    let len = card.len();
    if space.len() < len {
        return seen::nothing(lines::LOST);
    }
    let next = expect(s, at, card, &mut space[..len]);
    thrice(seen::nothing(next), &space[..len], m)
}
