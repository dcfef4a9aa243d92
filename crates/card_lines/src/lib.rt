// The lines of a settings card, one at a time: each function judges what a text begins with, and gives
// the text behind it, or reads numbers that were judged. For `card_verdicts` and `cards`.
#![tactic(auto)]

mod counts;
mod digits;
mod eight;
mod entries;
mod numbers;

pub use counts::count_line;
pub use entries::entries_line;
pub use numbers::entry_of;
