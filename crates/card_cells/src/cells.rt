// The comparison of a buffer with what a line expects.
ghost use Rattle.std.specs.Prelude.{◌≡◌, length};
ghost use Rattle.card_cells.specs.Cells.{kept_met, cell_met, all_met, cells_met};

use crate::lent::lent_bits;
use lists::{Seen, seen};

// The float x against the pattern that it was lent with.
#[tactic(auto, unfolding(crate::specs::Cells::kept_met))]
fn kept_met(o: Seen, buffer: usize, i: usize, x: f32) -> Seen
    ensures { result ≡ kept_met o buffer i x }
{
    let want = lent_bits(buffer, i);
    let found = lines::bits_of(x);
    seen::met(o, o.next, buffer, i, want, found, lines::same(found, want))
}

// Number i of a buffer: one of the first k against the next word, another against its pattern.
#[tactic(auto, unfolding(crate::specs::Cells::cell_met))]
fn cell_met(s: &[u8], o: Seen, buffer: usize, k: usize, i: usize, x: f32) -> Seen
    ensures { result ≡ cell_met s.now o buffer k i x }
{
    if i < k {
        seen::float_met(s, o, buffer, i, x)
    } else {
        kept_met(o, buffer, i, x)
    }
}

// All numbers of a buffer: of the first k the line has the words.
fn all_met(s: &[u8], o: Seen, buffer: usize, k: usize, cells: &[f32]) -> Seen
    ensures { result ≡ all_met s.now o buffer k cells.now (length cells.now) }
{
    let mut more = o;
    for (i, x) in cells.iter().enumerate() {
        more = cell_met(s, more, buffer, k, i, *x);
    }
    more
}

// The same, at most 272. With more, or where the line has more words than there are numbers, it is lost.
#[tactic(auto, unfolding(crate::specs::Cells::cells_met))]
pub fn cells_met(s: &[u8], o: Seen, buffer: usize, k: usize, cells: &[f32]) -> Seen
    ensures { result ≡ cells_met s.now o buffer k cells.now }
{
    if 272 < cells.len() || cells.len() < k {
        return Seen {
            next: lines::LOST,
            ..o
        };
    }
    all_met(s, o, buffer, k, cells)
}
