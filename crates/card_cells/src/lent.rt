// The buffers that a card is read into.
ghost use Rattle.std.specs.Prelude.{◌≡◌, take};
ghost use Rattle.card_cells.specs.Lent.{lent_bits, Lends};

use lists::Spelt;

// How many numbers the buffers for A, Q, H and R have, and the position behind the words.
#[derive(Clone, Copy, Default)]
pub struct Lengths {
    pub a: usize,
    pub q: usize,
    pub h: usize,
    pub r: usize,
    pub next: usize,
}

// A length: lost where it is above 272.
fn length_at(s: &[u8], at: usize) -> Spelt<usize> {
    let w = lines::word_at(s, at);
    if 272 < w.bits {
        return Spelt {
            value: 0,
            next: lines::LOST,
        };
    }
    Spelt {
        value: w.bits as usize,
        next: w.next,
    }
}

// The four lengths whose words begin at a position.
pub fn lengths_at(s: &[u8], at: usize) -> Lengths {
    let a = length_at(s, at);
    let q = length_at(s, a.next);
    let h = length_at(s, q.next);
    let r = length_at(s, h.next);
    Lengths {
        a: a.value,
        q: q.value,
        h: h.value,
        r: r.value,
        next: r.next,
    }
}

// The pattern that number i of a buffer is lent with: another one for each number of the four.
pub fn lent_bits(buffer: usize, i: usize) -> u32
    ensures { result ≡ lent_bits buffer i }
{
    (0x4b00_0000 + buffer % 4 * 512 + i % 512) as u32
}

// A buffer as it is lent: its numbers stand in front of its cells. A type of its own beside `lists::Lent`:
// what stands in it is no line's, and it has a card's 272 cells and no position.
#[derive(Clone, Copy)]
pub struct Lent {
    pub cells: [f32; 272],
    pub len: usize,
}

impl Lent {
    // Its numbers: as many of its cells as its length counts.
    pub fn numbers(&self) -> &[f32]
        ensures { result.now ≡ take self.now.len self.now.cells }
    {
        &self.cells[..self.len.min(272)]
    }

    // The same, to be written.
    pub fn numbers_mut(&mut self) -> &mut [f32] {
        &mut self.cells[..self.len.min(272)]
    }
}

// A buffer of len numbers, or 272 where that is less, each with its pattern.
pub fn lend(buffer: usize, len: usize) -> Lent
    ensures { Lends result buffer len }
{
    let len = len.min(272);
    let mut cells = [0.0f32; 272];
    for i in 0..len {
        cells[i] = lines::float_of(lent_bits(buffer, i));
    }
    Lent { cells, len }
}
