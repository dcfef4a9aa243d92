// One entry: eight hexadecimal digits in lower case, and the byte behind them.
ghost use Rattle.std.specs.Prelude.{◌≡◌, [], ◌∷◌, ◌++◌, ◌+◌, ◌≤◌, ◌<◌, length};
ghost use Rattle.std.proofs.lemmas.List.Edits.{sets};
ghost use Rattle.card_text.specs.Spelling.{digit_text, entry_text};

// The byte of a digit, with no branch between the decimal ones and the letters: which of them it is
// is by chance.
fn digit(x: u32) -> u8
    requires { x < 16 }
    ensures { result ≡ digit_text x }
{
    (48 + x + (x + 6) / 16 * 39) as u8
}

// Puts the digits of the number there, the highest first, and the byte `end` behind them. Nine stores and
// no loop: nothing is counted, and no digit waits for another.
pub fn put_field(into: &mut [u8], p: usize, e: u32, end: u8)
    requires { p + 9 ≤ length into.old }
    ensures { into.new ≡ sets into.old p (entry_text 8 e ++ (end ∷ [])) }
{
    into[p] = digit(e / 0x1000_0000);
    into[p + 1] = digit(e / 0x100_0000 % 16);
    into[p + 2] = digit(e / 0x10_0000 % 16);
    into[p + 3] = digit(e / 0x1_0000 % 16);
    into[p + 4] = digit(e / 0x1000 % 16);
    into[p + 5] = digit(e / 0x100 % 16);
    into[p + 6] = digit(e / 0x10 % 16);
    into[p + 7] = digit(e % 16);
    into[p + 8] = end;
}
