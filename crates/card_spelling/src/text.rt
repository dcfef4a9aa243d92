// The whole card.
ghost use Rattle.std.specs.Prelude.{◌≡◌, ◌*◌, ◌≤◌, length};
ghost use Rattle.std.proofs.lemmas.List.Edits.{sets};
ghost use Rattle.std.specs.Float.{binary32};
ghost use Rattle.card_text.specs.Spelling.{card_text, card_length};
ghost use Rattle.card_text.specs.Said.{said};

use crate::counts::put_count_line;
use crate::entries::put_entries_line;

// Puts the card of n states, m observations and the four matrices into the front of the buffer.
pub fn put_card(into: &mut [u8], n: usize, m: usize, a: &[f32], q: &[f32], h: &[f32], r: &[f32])
    requires { (1 ≤ n) × (n ≤ 16) × (1 ≤ m) × (m ≤ 16) × (n * n ≤ length a.now) × (n * n ≤ length q.now) × (m * n ≤ length h.now) × (m * m ≤ length r.now) × (card_length 8 n m ≤ length into.old) }
    ensures { into.new ≡ sets into.old 0 (card_text 8 (said binary32 n m a.now q.now h.now r.now)) }
{
    let at_states = put_count_line(into, 0, b"edition=", 1);
    let at_observations = put_count_line(into, at_states, b"states=", n);
    let at_a = put_count_line(into, at_observations, b"observations=", m);
    let at_q = put_entries_line(into, at_a, b"a=", &*a, n * n);
    let at_h = put_entries_line(into, at_q, b"q=", &*q, n * n);
    let at_r = put_entries_line(into, at_h, b"h=", &*h, m * n);
    put_entries_line(into, at_r, b"r=", &*r, m * m);
}
