// The numbers that digits spell.
ghost use Rattle.std.specs.Prelude.{◌≡◌, true, ◌≤◌, length, take};
ghost use Rattle.card_text.specs.Values.{are_digits, spelt_from};

use crate::digits::worth;

// The number that the eight digits at the front of the text spell.
pub fn entry_of(text: &[u8]) -> u32
    requires { (8 ≤ length text.now) × (are_digits (take 8 text.now) ≡ true) }
    ensures { result ≡ spelt_from 0 (take 8 text.now) }
{
    let mut n: u32 = 0;
    for b in &text[..8] {
        n = n * 16 + worth(*b);
    }
    n
}
