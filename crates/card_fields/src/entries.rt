// Entries, one after the other.
ghost use Rattle.std.specs.Prelude.{◌≡◌, [], ◌∷◌, ◌++◌, ◌+◌, ◌*◌, ◌≤◌, length};
ghost use Rattle.std.proofs.lemmas.List.Edits.{sets};
ghost use Rattle.std.specs.Float.{binary32};
ghost use Rattle.card_text.specs.Lines.{newline};
ghost use Rattle.card_text.specs.Spelling.{entries_text};
ghost use Rattle.card_text.specs.Said.{patterns};

use crate::fields::put_field;
use lines::bits_of;

// Puts the first k numbers there, as entries with commas between and a newline behind the last.
pub fn put_entries(into: &mut [u8], at: usize, x: &[f32], k: usize) -> usize
    requires { (1 ≤ k) × (k ≤ length x.now) × (at + k * 9 ≤ length into.old) }
    ensures behind { result ≡ at + k * 9 }
    ensures put { into.new ≡ sets into.old at (entries_text 8 (patterns binary32 k x.now) ++ (newline ∷ [])) }
{
    let last = k - 1;
    for i in 0..last {
        put_field(into, at + i * 9, bits_of(x[i]), b',');
    }
    put_field(into, at + last * 9, bits_of(x[last]), b'\n');
    at + k * 9
}
