// What a fitter is told of a card: the card again, or what is wrong with which of its lines. For the
// program `card`.
#![tactic(auto)]

mod words;

ghost use Rattle.std.specs.Prelude.{◌≡◌, ◌≤◌, length};
ghost use Rattle.std.proofs.lemmas.List.Edits.{sets};
ghost use Rattle.std.specs.Float.{binary32};
ghost use Rattle.card_words.specs.Report.{report_of};

use words::put_words;

// Puts the report on the card into the front of the buffer: how long it is.
pub fn report(card: &[u8], out: &mut [u8]) -> usize
    requires { 9260 ≤ length out.old }
    ensures fits { result ≤ 9260 }
    ensures long { result ≡ length (report_of binary32 8 card.now) }
    ensures put { out.new ≡ sets out.old 0 (report_of binary32 8 card.now) }
{
    let mut a = [0.0f32; 256];
    let mut q = [0.0f32; 256];
    let mut h = [0.0f32; 256];
    let mut r = [0.0f32; 256];
    match cards::read(card, &mut a, &mut q, &mut h, &mut r) {
        Err(why) => put_words(out, why),
        Ok((n, m)) => match cards::write(n, m, &a, &q, &h, &r, out) {
            Ok(l) => l,
            Err(why) => put_words(out, why),
        },
    }
}
