// Which settings card is taken (R34). For `cards`.
#![tactic(auto)]

ghost use Rattle.std.specs.Prelude.{◌≡◌, false, List, ℕ, ◌≤◌};
ghost use Rattle.card_text.specs.Lines.{ends, behind_lines};
ghost use Rattle.card_text.specs.Card.{card_answer};
ghost use Rattle.card_verdicts.specs.Verdicts.{head_answer, matrices_answer, Judged, SizedBy};

use answers::{Answer, Refusal};
use card_lines::{count_line, entries_line};

// Judges the whole card. Where it is right: how many states and observations it has, and the card from
// line 4 on. Else the first thing that is wrong.
pub fn judge(card: &[u8]) -> Result<(usize, usize, &[u8]), Refusal>
    ensures { Judged (card_answer 8 card.now) card.now result }
{
    let (n, m, rest) = heading(card)?;
    matrices(rest, n, m)?;
    Ok((n, m, rest))
}

// Judges lines 1 to 3: the edition and both sizes.
fn heading(card: &[u8]) -> Result<(usize, usize, &[u8]), Refusal>
    ensures { Judged (head_answer card.now) card.now result }
{
    let (edition, rest) = count_line(card, b"edition=").ok_or(Refusal::Line(1))?;
    if edition != 1 {
        return Err(Refusal::Edition);
    }
    let (n, rest) = size_line(rest, b"states=", 2, 0)?;
    let (m, rest) = size_line(rest, b"observations=", 3, 1)?;
    Ok((n, m, rest))
}

// Judges the first line of the text, with a size: its number is `line`, and the size is the `which`-th
// of the card. Where both are right: the size, and the text behind the line.
fn size_line<'a>(
    text: &'a [u8],
    key: &[u8],
    line: usize,
    which: usize,
) -> Result<(usize, &'a [u8]), Refusal>
    requires { ends key.now ≡ false }
    ensures { SizedBy key.now line which text.now result }
{
    let (n, rest) = count_line(text, key).ok_or(Refusal::Line(line))?;
    answers::then_size(Ok(()), which, n)?;
    Ok((n, rest))
}

// Judges lines 4 to 7, with which the text begins, and that nothing stands behind them.
fn matrices(text: &[u8], n: usize, m: usize) -> Answer
    requires { (1 ≤ n) × (n ≤ 16) × (1 ≤ m) × (m ≤ 16) }
    ensures { (s : List ℕ) → text.now ≡ behind_lines 3 s → result ≡ matrices_answer 8 n m s }
{
    let q = entries_line(text, b"a=", n * n).ok_or(Refusal::Line(4))?;
    let h = entries_line(q, b"q=", n * n).ok_or(Refusal::Line(5))?;
    let r = entries_line(h, b"h=", m * n).ok_or(Refusal::Line(6))?;
    let end = entries_line(r, b"r=", m * m).ok_or(Refusal::Line(7))?;
    if end.is_empty() {
        Ok(())
    } else {
        Err(Refusal::Line(8))
    }
}
