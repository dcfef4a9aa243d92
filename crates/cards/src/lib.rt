// Settings cards: the reader (R34) and the writer (R35).
#![tactic(auto)]

mod matrices;

ghost use Rattle.std.specs.Prelude.{◌≡◌, ◌≤◌};
ghost use Rattle.std.specs.Float.{binary32};
ghost use Rattle.card_text.specs.Spelling.{count_digits, card_length};
ghost use Rattle.cards.specs.Read.{CardRead};
ghost use Rattle.cards.specs.Written.{sizes_answer, measured, CardWritten};
ghost use Rattle.cards.specs.Steps.{room_answer};

use answers::{Answer, Refusal};
use card_spelling::put_card;
use card_verdicts::judge;
use matrices::fill_all;

// Reads the card: its matrices stand in the front of the four buffers, and how many states and
// observations it has comes back. Or it is refused, by its first wrong line or, where the whole card is
// right, by its first short buffer; then no buffer is changed.
pub fn read(
    card: &[u8],
    a: &mut [f32],
    q: &mut [f32],
    h: &mut [f32],
    r: &mut [f32],
) -> Result<(usize, usize), Refusal>
    ensures { CardRead binary32 8 card.now a.old q.old h.old r.old result a.new q.new h.new r.new }
{
    let (n, m, rest) = judge(card)?;
    room(n, m, a.len(), q.len(), h.len(), r.len())?;
    fill_all(rest, n, m, a, q, h, r);
    Ok((n, m))
}

// Writes the card of n states, m observations and the four matrices into the front of the bytes: how
// long it is comes back. Or it is refused, by its first size that is not 1 to 16, or by its first
// short buffer, of which the bytes are the last; then no byte is changed.
pub fn write(
    n: usize,
    m: usize,
    a: &[f32],
    q: &[f32],
    h: &[f32],
    r: &[f32],
    card: &mut [u8],
) -> Result<usize, Refusal>
    ensures { CardWritten binary32 8 n m a.now q.now h.now r.now card.old result card.new }
{
    let l = length_of(n, m)?;
    let matrices = room(n, m, a.len(), q.len(), h.len(), r.len());
    answers::then_buffer(matrices, 4, l, card.len())?;
    put_card(card, n, m, &*a, &*q, &*h, &*r);
    Ok(l)
}

// How many bytes the card of n states and m observations has. Or refusal 1.
pub fn length_of(n: usize, m: usize) -> Result<usize, Refusal>
    ensures { result ≡ measured (sizes_answer n m) (card_length 8 n m) }
{
    let states = answers::then_size(Ok(()), 0, n);
    answers::then_size(states, 1, m)?;
    Ok(bytes_of(n, m))
}

// The same of sizes that are taken.
fn bytes_of(n: usize, m: usize) -> usize
    requires { (n ≤ 16) × (m ≤ 16) }
    ensures { result ≡ card_length 8 n m }
{
    let entries = n * n + n * n + m * n + m * m;
    40 + digits_of(n) + digits_of(m) + entries * 9
}

// How many digits a size has.
fn digits_of(n: usize) -> usize
    ensures { result ≡ count_digits n }
{
    if n < 10 { 1 } else { 2 }
}

// Refusal 2 where one of the buffers, of so many numbers, is shorter than its matrix.
fn room(n: usize, m: usize, la: usize, lq: usize, lh: usize, lr: usize) -> Answer
    ensures { result ≡ room_answer n m la lq lh lr }
{
    let a = answers::then_matrix(Ok(()), 0, n, n, la);
    let q = answers::then_matrix(a, 1, n, n, lq);
    let h = answers::then_matrix(q, 2, m, n, lh);
    answers::then_matrix(h, 3, m, m, lr)
}
