// The comparison of what writing a card says and leaves with what is expected of it.
ghost use Rattle.std.specs.Prelude.{◌≡◌};
ghost use Rattle.card_bytes.specs.Written.{number_met, written_met};

use crate::bytes::bytes_met;
use lists::{Seen, seen};

// The buffers' numbers in Seen where what differs is the code, or the length, that writing says.
pub const CODE: usize = 104;

pub const LENGTH: usize = 105;

// The number that was found, against the one that is expected.
#[tactic(auto, unfolding(crate::specs::Written::number_met))]
fn number_met(o: Seen, buffer: usize, want: usize, found: usize) -> Seen
    ensures { result ≡ number_met o buffer want found }
{
    seen::met(
        o,
        o.next,
        buffer,
        0,
        seen::low(want),
        seen::low(found),
        want == found,
    )
}

// What writing said, its code and a length, and what the bytes hold: the text is expected in front, with 0
// and its length; or, where it is longer than the bytes, 204 and every byte as it was lent.
#[tactic(auto, unfolding(crate::specs::Written::written_met))]
pub fn written_met(o: Seen, text: &[u8], code: usize, length: usize, bytes: &[u8]) -> Seen
    ensures { result ≡ written_met o text.now code length bytes.now }
{
    if bytes.len() < text.len() {
        let refused = number_met(o, CODE, 204, code);
        return bytes_met(refused, &[], bytes);
    }
    let done = number_met(o, CODE, 0, code);
    let long = number_met(done, LENGTH, text.len(), length);
    bytes_met(long, text, bytes)
}
