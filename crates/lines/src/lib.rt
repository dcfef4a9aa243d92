// Reading lists of bit patterns: hexadecimal numbers of eight digits, words, where a line ends, and
// the floats that patterns stand for.
#![tactic(auto)]

mod pattern;
mod words;

ghost use Rattle.std.specs.Prelude.{◌≡◌, ◌<◌, get_or, MatchOption};
ghost use Rattle.lines.specs.Hex.{digit_of, hex8_at};
ghost use Rattle.lines.specs.Line.{LineEnd};

pub use pattern::{bits_of, float_of, same};
pub use words::{LOST, Word, word_at};

// The byte at a position, or 0 past the end.
pub fn byte_at(s: &[u8], at: usize) -> u8
    ensures { result ≡ get_or s.now at 0 }
{
    s.get(at).copied().unwrap_or(0)
}

// What the byte b is worth as a hexadecimal digit in lower case, or nothing where it is none.
fn digit(b: u8) -> Option<u32>
    ensures { MatchOption result (digit_of b ≡ 16) (λ d. (d < 16) × (d ≡ digit_of b)) }
{
    match b {
        b'0'..=b'9' => Some((b - b'0') as u32),
        b'a'..=b'f' => Some((b - b'a') as u32 + 10),
        _ => None,
    }
}

// The number that the eight hexadecimal digits from position `at` on spell, in lower case and the
// highest first, with the position after them. Nothing where one of the eight bytes is no such digit
// or lies past the end.
pub fn hex8(s: &[u8], at: usize) -> Option<Word>
    ensures { result ≡ hex8_at s.now at }
{
    let digits = s.get(at..)?.get(..8)?;
    let mut bits: u32 = 0;
    for b in digits {
        bits = bits * 16 + digit(*b)?;
    }
    Some(Word { bits, next: at + 8 })
}

// The position of the first newline from `from` on, or the length where there is none. A `from`
// past the end comes back as it is.
pub fn line_end(s: &[u8], from: usize) -> usize
    ensures { LineEnd s.now from result }
{
    for i in from..s.len() {
        if s[i] == b'\n' {
            return i;
        }
    }
    from.max(s.len())
}
