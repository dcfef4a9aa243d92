// The matrices of a card that was read, written again and compared with what a line expects.
#![tactic(auto)]

mod again;

pub use again::{Model, write_again};
