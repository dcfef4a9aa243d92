// The cards of a list: the bytes that a line holds, and a card that is made of another.
#![tactic(auto)]

mod edit;
mod packed;

pub use edit::{Edit, Range, edit_at, make};
pub use packed::unpack;
