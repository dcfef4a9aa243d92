// The comparison of bytes with what is expected of them.
ghost use Rattle.std.specs.Prelude.{◌≡◌, length};
ghost use Rattle.card_bytes.specs.Bytes.{wanted_byte, byte_met, bytes_met};

use crate::lent::lent_byte;
use lists::{Seen, seen};

// The buffer's number in Seen where what differs is a byte of a card that is written.
const BYTES: usize = 103;

// What byte i must be: the text's and, behind it, what it was lent with.
fn wanted_byte(text: &[u8], i: usize) -> u8
    ensures { result ≡ wanted_byte text.now i }
{
    text.get(i).copied().unwrap_or(lent_byte(i))
}

// Byte i, which is x, against that.
#[tactic(auto, unfolding(crate::specs::Bytes::byte_met))]
fn byte_met(o: Seen, text: &[u8], i: usize, x: u8) -> Seen
    ensures { result ≡ byte_met o text.now i x }
{
    let want = wanted_byte(text, i);
    seen::met(o, o.next, BYTES, i, want as u32, x as u32, want == x)
}

// All bytes: the text is expected in front.
pub fn bytes_met(o: Seen, text: &[u8], bytes: &[u8]) -> Seen
    ensures { result ≡ bytes_met o text.now bytes.now (length bytes.now) }
{
    let mut more = o;
    for (i, x) in bytes.iter().enumerate() {
        more = byte_met(more, text, i, *x);
    }
    more
}
