// The text of a settings card, put into a buffer of bytes line by line: each function puts its bytes at
// a position and gives the position behind them: the rest of a lent buffer would have to be cut to a line's
// length before the line is known. For `cards`.
#![tactic(auto)]

mod counts;
mod entries;
mod text;

pub use counts::put_count_line;
pub use entries::put_entries_line;
pub use text::put_card;
