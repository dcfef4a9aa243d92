// Replays a list of settings cards from standard input against the reader, every code, size and
// number, and against the writer: where a card is taken, the matrices that were read are written again,
// and every byte is compared. Writes `N cards read, D differ`, `W cards written again, E differ` and
// `B bad lines`, and before them the first ten lines that have a card which differs, with the first
// such, or are bad. A bad line counts as a difference of a card read too.
//
// A line of the list is a letter and words, each a space and eight hexadecimal digits in lower case
// (lines::word_at), with nothing behind the last:
//
//   # ..                a comment
//   c LEN BYTES..       the card from here on: its length, and its bytes, four to a word, the first
//                       highest, the last word filled up with zeros
//   b A Q H R           the lengths of the buffers from here on, each at most 272
//   x AT OUT WANT..     the card with OUT bytes taken out from position AT on (0 0: as it is)
//   p AT OUT LOW HIGH WANT..
//                       the same with a byte put in their place, each from LOW to HIGH in turn, but
//                       not the one that was taken out where OUT is 1
//
// WANT is the code (100 times the answer's number, plus what it carries) and, where that is 0, both
// sizes, every pattern of A, Q, H and R, the number of places where the card is written otherwise, and
// the position of each: 7fc00000 stands there, and every other byte is the card's own. The buffers are
// lent with a pattern of its own in every number, which must stand wherever the card puts nothing. Any
// NaN equals any other. The card is written into 20 bytes more than it has, into as many, and into one
// less, which is refused (204). These bytes are lent with values that no card has, which must stand past
// it, and everywhere where it is refused.
#![tactic(auto)]

mod cases;

use std::io;

fn main(rt: HostRuntime) -> io::Result<()> {
    let mut space = [0u8; 65536];
    let mut base = [0u8; 12288];
    let mut v = cases::start();
    refills::feed(&mut rt.reader(), &mut space, |s| {
        v = cases::add_lines(&rt, v, s, &mut base)?;
        Ok(())
    })?;
    println!(rt; "{}", v.t)
}
