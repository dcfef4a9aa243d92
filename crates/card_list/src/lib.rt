// Lists of settings cards and answers: what reading a line's cards and writing them again finds, compared
// with what the line expects.
#![tactic(auto)]

mod compare;
mod line;

pub use compare::SIZES;
pub use line::{Count, Difference, Found, replay};
