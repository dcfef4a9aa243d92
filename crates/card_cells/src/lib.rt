// The buffers that a list's cards are read into: how they are lent, and the comparison of what they
// hold afterwards with what a line expects.
#![tactic(auto)]

mod cells;
mod lent;

pub use cells::cells_met;
pub use lent::{Lengths, Lent, lend, lengths_at};
