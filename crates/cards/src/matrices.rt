// The matrices of a card that is right, into the buffers.
ghost use Rattle.std.specs.Prelude.{◌≡◌, true, ◌*◌, ◌≤◌, length, drop};
ghost use Rattle.std.specs.Float.{binary32};
ghost use Rattle.grids.specs.Grid.{run};
ghost use Rattle.card_text.specs.Lines.{behind_lines};
ghost use Rattle.card_text.specs.Values.{entries_in};
ghost use Rattle.card_text.specs.Card.{a_key, q_key, h_key, r_key, entries_of};
ghost use Rattle.card_lines.specs.Front.{fields};
ghost use Rattle.cards.specs.Read.{floats};
ghost use Rattle.cards.specs.Steps.{Right};

use card_lines::entry_of;

// Puts A, Q, H and R, with whose lines the text begins, into the front of their buffers. Each key has
// two bytes.
pub fn fill_all(
    text: &[u8],
    n: usize,
    m: usize,
    a: &mut [f32],
    q: &mut [f32],
    h: &mut [f32],
    r: &mut [f32],
)
    requires { Right 8 n m text.now × (n * n ≤ length a.old) × (n * n ≤ length q.old) × (m * n ≤ length h.old) × (m * m ≤ length r.old) }
    ensures a { a.new ≡ run 0 (n * n) (floats binary32 (entries_of 8 a_key (n * n) text.now)) a.old }
    ensures q { q.new ≡ run 0 (n * n) (floats binary32 (entries_of 8 q_key (n * n) (behind_lines 1 text.now))) q.old }
    ensures h { h.new ≡ run 0 (m * n) (floats binary32 (entries_of 8 h_key (m * n) (behind_lines 2 text.now))) h.old }
    ensures r { r.new ≡ run 0 (m * m) (floats binary32 (entries_of 8 r_key (m * m) (behind_lines 3 text.now))) r.old }
{
    let line_q = fill(&text[2..], n * n, a);
    let line_h = fill(&line_q[2..], n * n, q);
    let line_r = fill(&line_h[2..], m * n, h);
    fill(&line_r[2..], m * m, r);
}

// Puts the k entries with which the text begins into the front of the buffer: the text behind them.
fn fill<'a>(text: &'a [u8], k: usize, into: &mut [f32]) -> &'a [u8]
    requires { (fields 8 k text.now ≡ true) × (k ≤ length into.old) }
    ensures behind { result.now ≡ drop (k * 9) text.now }
    ensures filled { into.new ≡ run 0 k (floats binary32 (entries_in 8 k text.now)) into.old }
{
    for i in 0..k {
        into[i] = lines::float_of(entry_of(&text[i * 9..]));
    }
    &text[k * 9..]
}
