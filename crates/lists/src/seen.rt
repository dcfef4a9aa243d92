// What the comparison of a line has found so far.
ghost use Rattle.std.specs.Prelude.{◌≡◌, map, length};
ghost use Rattle.lists.specs.Seen.{nothing_at, met_of, float_met, whole_met, low_of, answer_met, value_met, cells_met, buffer_met, buffers_met};

use answers::Answer;

// The position of the next word, how many numbers were compared, how many of them differ, and of the
// first that differs: its place, what the list has and what was found.
#[derive(Clone, Copy)]
pub struct Seen {
    pub next: usize,
    pub numbers: u64,
    pub differ: u64,
    pub buffer: usize,
    pub index: usize,
    pub want: u32,
    pub found: u32,
}

// The buffer's number in Seen where what differs is the answer, and where it is the value: numbers, and no
// enum, since a buffer goes by its number on the line and the programs print it.
pub const ANSWER: usize = 100;

pub const VALUE: usize = 101;

// Nothing compared, the next word at a position.
pub fn nothing(at: usize) -> Seen
    ensures { result ≡ nothing_at at }
{
    Seen {
        next: at,
        numbers: 0,
        differ: 0,
        buffer: 0,
        index: 0,
        want: 0,
        found: 0,
    }
}

// One number more: the list has `want`, `found` was found, and they are the same or not.
pub fn met(
    o: Seen,
    next: usize,
    buffer: usize,
    index: usize,
    want: u32,
    found: u32,
    same: bool,
) -> Seen
    ensures { result ≡ met_of same o next buffer index want found }
{
    let numbers = o.numbers.saturating_add(1);
    if same {
        return Seen { next, numbers, ..o };
    }
    let differ = o.differ.saturating_add(1);
    if o.differ != 0 {
        return Seen {
            next,
            numbers,
            differ,
            ..o
        };
    }
    Seen {
        next,
        numbers,
        differ,
        buffer,
        index,
        want,
        found,
    }
}

// The float x against the next word: any NaN is the same as any other.
#[tactic(auto, unfolding(crate::specs::Seen::float_met))]
pub fn float_met(s: &[u8], o: Seen, buffer: usize, index: usize, x: f32) -> Seen
    ensures { result ≡ float_met s.now o buffer index x }
{
    let w = lines::word_at(s, o.next);
    let found = lines::bits_of(x);
    met(
        o,
        w.next,
        buffer,
        index,
        w.bits,
        found,
        lines::same(found, w.bits),
    )
}

// The number n, at most 32 bits, against the next word.
#[tactic(auto, unfolding(crate::specs::Seen::whole_met))]
pub fn whole_met(s: &[u8], o: Seen, buffer: usize, index: usize, n: usize) -> Seen
    ensures { result ≡ whole_met s.now o buffer index n }
{
    let w = lines::word_at(s, o.next);
    let found = low(n);
    met(
        o,
        w.next,
        buffer,
        index,
        w.bits,
        found,
        w.bits as usize == n,
    )
}

// n where it has 32 bits, else the largest number that has.
pub fn low(n: usize) -> u32
    ensures { result ≡ low_of n }
{
    u32::try_from(n).unwrap_or(u32::MAX)
}

// The answer against the next two words: its number, and what it carries.
#[tactic(auto, unfolding(crate::specs::Seen::answer_met))]
pub fn answer_met(s: &[u8], at: usize, v: Answer) -> Seen
    ensures { result ≡ answer_met s.now at v }
{
    let o = whole_met(s, nothing(at), ANSWER, 0, answers::number_of(v));
    whole_met(s, o, ANSWER, 1, answers::carried_by(v))
}

// The value that came back against the next word.
#[tactic(auto, unfolding(crate::specs::Seen::value_met))]
pub fn value_met(s: &[u8], o: Seen, x: f32) -> Seen
    ensures { result ≡ value_met s.now o x }
{
    float_met(s, o, VALUE, 0, x)
}

// A buffer's cells against the next words, of which the first is how many they are. With another
// length, or one above 304, the line is lost.
#[tactic(auto, unfolding(crate::specs::Seen::buffer_met))]
pub fn buffer_met(s: &[u8], o: Seen, buffer: usize, cells: &[f32]) -> Seen
    ensures { result ≡ buffer_met s.now o buffer cells.now }
{
    let w = lines::word_at(s, o.next);
    if w.bits as usize != cells.len() || 304 < cells.len() {
        return Seen {
            next: lines::LOST,
            ..o
        };
    }
    cells_met(s, Seen { next: w.next, ..o }, buffer, cells)
}

// Buffers against the next words, one after the other, numbered from 0.
pub fn buffers_met(s: &[u8], o: Seen, buffers: &[&[f32]]) -> Seen
    ensures { result ≡ buffers_met s.now o (map (λ b. b.now) buffers.now) (length buffers.now) }
{
    let mut more = o;
    for (i, cells) in buffers.iter().enumerate() {
        more = buffer_met(s, more, i, *cells);
    }
    more
}

// The cells against the next words, one after the other.
fn cells_met(s: &[u8], o: Seen, buffer: usize, cells: &[f32]) -> Seen
    ensures { result ≡ cells_met s.now o buffer cells.now (length cells.now) }
{
    let mut more = o;
    for (i, x) in cells.iter().enumerate() {
        more = float_met(s, more, buffer, i, *x);
    }
    more
}
