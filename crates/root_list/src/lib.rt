// A list of square roots: what a line holds, the comparison of a root, and the counts.
#![tactic(auto)]

mod line;
mod pattern;
mod tally;

pub use line::{Line, read_line};
pub use pattern::{agrees, root_bits};
pub use tally::Tally;
