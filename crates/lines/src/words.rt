// Words of a list: a space and eight hexadecimal digits.
ghost use Rattle.std.specs.Prelude.{◌≡◌};
ghost use Rattle.lines.specs.Word.{word_at};

use crate::{byte_at, hex8};

// The position behind a word that is none. Every word from there on is none either, so that one
// test at the end of a line tells whether all of its words were read: a position, and no Option,
// since what was counted before a lost word is counted all the same.
pub const LOST: usize = 0xffff_ffff_ffff_ffff;

// A word's digits as a number, and the position behind them.
#[derive(Clone, Copy)]
pub struct Word {
    pub bits: u32,
    pub next: usize,
}

// No word.
const NONE: Word = Word {
    bits: 0,
    next: LOST,
};

// The word at a position; 0 and LOST where there is none.
pub fn word_at(s: &[u8], at: usize) -> Word
    ensures { result ≡ word_at s.now at }
{
    if byte_at(s, at) != b' ' {
        return NONE;
    }
    hex8(s, at + 1).unwrap_or(NONE)
}
