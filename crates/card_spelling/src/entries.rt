// Lines that hold the entries of a matrix.
ghost use Rattle.std.specs.Prelude.{◌≡◌, [], ◌+◌, ◌*◌, ◌≤◌, length};
ghost use Rattle.std.proofs.lemmas.List.Edits.{sets};
ghost use Rattle.std.specs.Float.{binary32};
ghost use Rattle.card_text.specs.Spelling.{entries_text, line};
ghost use Rattle.card_text.specs.Said.{patterns};

use card_fields::{put_bytes, put_entries};

// Puts the line of the key and the first k numbers there, as entries with commas between and a newline
// at its end.
pub fn put_entries_line(into: &mut [u8], at: usize, key: &[u8], x: &[f32], k: usize) -> usize
    requires { (1 ≤ k) × (k ≤ length x.now) × (at + (length key.now + k * 9) ≤ length into.old) }
    ensures behind { result ≡ at + (length key.now + k * 9) }
    ensures put { into.new ≡ sets into.old at (line key.now (entries_text 8 (patterns binary32 k x.now)) []) }
{
    let p = put_bytes(into, at, key);
    put_entries(into, p, &*x, k)
}
