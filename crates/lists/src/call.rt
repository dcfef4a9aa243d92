// What a line says of its call: the numbers before the buffers, and the buffers.
ghost use Rattle.std.specs.Prelude.{◌≡◌, take};
ghost use Rattle.lists.specs.Call.{whole_at, real_at, head_at};
ghost use Rattle.lists.specs.Lent.{Lends, none_at, numbers_at, lent_at};

// What a function takes and hands back: how many sizes, whether a row and a column, how many floats,
// how many buffers, and whether a value comes back. Three facts, and no value that hangs on them.
#[derive(Clone, Copy, Default)]
pub struct Shape {
    pub sizes: usize,
    pub row: bool,
    pub column: bool,
    pub floats: usize,
    pub buffers: usize,
    pub value: bool,
}

// The sizes, the place and the floats of a call, 0 where it takes none, and the position behind.
#[derive(Clone, Copy)]
pub struct Head {
    pub first: usize,
    pub second: usize,
    pub third: usize,
    pub row: usize,
    pub column: usize,
    pub u: f32,
    pub v: f32,
    pub next: usize,
}

// What a line spells at a position, and the position behind it.
#[derive(Clone, Copy)]
pub struct Spelt<T> {
    pub value: T,
    pub next: usize,
}

// The size, row or column at a position, where one is wanted: ffffffff stands for the largest usize. What
// is not wanted is 0, and the position stays: the caller reads on from there all the same, so that an
// Option would be taken apart at each call.
fn whole_at(s: &[u8], at: usize, wanted: bool) -> Spelt<usize>
    ensures { result ≡ whole_at s.now at wanted }
{
    if !wanted {
        return Spelt { value: 0, next: at };
    }
    let w = lines::word_at(s, at);
    if w.bits == 0xffff_ffff {
        return Spelt {
            value: usize::MAX,
            next: w.next,
        };
    }
    Spelt {
        value: w.bits as usize,
        next: w.next,
    }
}

// The float at a position, where one is wanted.
fn real_at(s: &[u8], at: usize, wanted: bool) -> Spelt<f32>
    ensures { result ≡ real_at s.now at wanted }
{
    if !wanted {
        return Spelt {
            value: 0.0,
            next: at,
        };
    }
    let w = lines::word_at(s, at);
    Spelt {
        value: lines::float_of(w.bits),
        next: w.next,
    }
}

// What stands before the buffers.
#[tactic(auto, unfolding(crate::specs::Call::head_at))]
pub fn head_at(s: &[u8], at: usize, h: Shape) -> Head
    ensures { result ≡ head_at s.now at h }
{
    let first = whole_at(s, at, 0 < h.sizes);
    let second = whole_at(s, first.next, 1 < h.sizes);
    let third = whole_at(s, second.next, 2 < h.sizes);
    let row = whole_at(s, third.next, h.row);
    let column = whole_at(s, row.next, h.column);
    let u = real_at(s, column.next, 0 < h.floats);
    let v = real_at(s, u.next, 1 < h.floats);
    Head {
        first: first.value,
        second: second.value,
        third: third.value,
        row: row.value,
        column: column.value,
        u: u.value,
        v: v.value,
        next: v.next,
    }
}

// A buffer as it is lent: its numbers stand in front of its cells, and the position behind them.
#[derive(Clone, Copy)]
pub struct Lent {
    pub cells: [f32; 304],
    pub len: usize,
    pub next: usize,
}

impl Lent {
    // Its numbers: as many of its cells as its length counts.
    pub fn numbers(&self) -> &[f32]
        ensures { result.now ≡ take self.now.len self.now.cells }
    {
        &self.cells[..self.len.min(304)]
    }

    // The same, to be written.
    pub fn numbers_mut(&mut self) -> &mut [f32] {
        &mut self.cells[..self.len.min(304)]
    }
}

// No buffer, at a position.
fn none(at: usize) -> Lent
    ensures { Lends result (none_at at) }
{
    Lent {
        cells: [0.0; 304],
        len: 0,
        next: at,
    }
}

// The buffer of len numbers whose words begin at a position. A length above 304 is none that a list
// has: the line is lost.
fn numbers(s: &[u8], at: usize, len: usize) -> Lent
    ensures { Lends result (numbers_at s.now at len) }
{
    if 304 < len {
        return none(lines::LOST);
    }
    let mut cells = [0.0f32; 304];
    let mut next = at;
    for i in 0..len {
        let w = lines::word_at(s, next);
        cells[i] = lines::float_of(w.bits);
        next = w.next;
    }
    Lent { cells, len, next }
}

// The buffer at a position, where one is wanted: its length, and its numbers.
#[tactic(auto, unfolding(crate::specs::Lent::lent_at))]
pub fn lend(s: &[u8], at: usize, wanted: bool) -> Lent
    ensures { Lends result (lent_at s.now at wanted) }
{
    if !wanted {
        return none(at);
    }
    let w = lines::word_at(s, at);
    numbers(s, w.next, w.bits as usize)
}
