// What stands in the lines of a settings card, put into a buffer of bytes: bytes as they are, and entries.
// Each function puts its bytes at a position and gives the position behind them. For `card_spelling`
// and `card_words`.
#![tactic(auto)]

mod bytes;
mod entries;
mod fields;

pub use bytes::put_bytes;
pub use entries::put_entries;
