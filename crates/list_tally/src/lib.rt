// What the replay of a list counts and writes, for the program `vectors`.
#![tactic(auto)]

ghost use Rattle.std.specs.Prelude.{◌≡◌, ◌≤◌, length, take};

pub mod print;
pub mod tally;

// How many small letters and '_' stand at the front of s.
pub fn letters(s: &[u8]) -> usize
    ensures within { result ≤ length s.now }
    ensures prefix { result ≡ length (take result s.now) }
{
    s.iter()
        .position(|b| *b != b'_' && !b.is_ascii_lowercase())
        .unwrap_or(s.len())
}
