// Lists of calls and answers, as the oracle writes them: what a line says of its call, and the
// comparison of what came back with the rest of the line.
#![tactic(auto)]

mod call;
pub mod seen;

pub use call::{Head, Lent, Shape, Spelt, head_at, lend};
pub use seen::Seen;
