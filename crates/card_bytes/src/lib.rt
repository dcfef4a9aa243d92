// The bytes that a list's cards are written into: how they are lent, what is expected of them, and the
// comparison of what they hold afterwards.
#![tactic(auto)]

mod bytes;
mod expected;
mod lent;
mod written;

pub use expected::expect;
pub use lent::lend_bytes;
pub use written::{CODE, LENGTH, written_met};
