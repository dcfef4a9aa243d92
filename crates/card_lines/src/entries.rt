// Lines that hold the entries of a matrix.
ghost use Rattle.std.specs.Prelude.{◌≡◌, false, ◌≤◌, option_copied};
ghost use Rattle.card_text.specs.Lines.{ends};
ghost use Rattle.card_lines.specs.Front.{entries_first, found};

use crate::eight::behind_field;

// The text behind its first line, where that is right: the key, k entries of eight digits with commas
// between, and a newline.
pub fn entries_line<'a>(text: &'a [u8], key: &[u8], k: usize) -> Option<&'a [u8]>
    requires { (ends key.now ≡ false) × (1 ≤ k) }
    ensures { option_copied result ≡ found 8 key.now k text.now }
{
    entries_here(text.strip_prefix(key)?, k)
}

// The same from behind the key on.
fn entries_here(text: &[u8], k: usize) -> Option<&[u8]>
    requires { 1 ≤ k }
    ensures { option_copied result ≡ entries_first 8 k text.now }
{
    let mut rest = text;
    for _ in 1..k {
        rest = behind_field(rest, b',')?;
    }
    behind_field(rest, b'\n')
}
