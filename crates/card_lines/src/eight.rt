// Eight digits and the byte behind them.
ghost use Rattle.std.specs.Prelude.{◌≡◌, ◌≤◌, option_copied};
ghost use Rattle.card_lines.specs.Front.{field_first};

use crate::digits::other;

// The text behind eight digits and the byte `end`, where it begins with these. Every digit is looked at,
// with no branch on the way.
pub fn behind_field(text: &[u8], end: u8) -> Option<&[u8]>
    requires { 1 ≤ end }
    ensures { option_copied result ≡ field_first 8 end text.now }
{
    if text.len() < 9 {
        return None;
    }
    let mut others: u32 = 0;
    for b in &text[..8] {
        others += other(*b);
    }
    if others == 0 && text[8] == end {
        Some(&text[9..])
    } else {
        None
    }
}
