// Words for each refusal of a card.
ghost use Rattle.std.specs.Prelude.{◌≡◌, ◌≤◌, length, Err};
ghost use Rattle.std.proofs.lemmas.List.Edits.{sets};
ghost use Rattle.card_words.specs.Words.{line_words, size_words, words_of};

use answers::Refusal;
use card_fields::put_bytes;

// Puts the words for the refusal into the front of the buffer: how many bytes they have.
#[tactic(auto, unfolding(crate::specs::Words::words_of, crate::specs::Words::bytes_of))]
pub fn put_words(out: &mut [u8], why: Refusal) -> usize
    requires { 128 ≤ length out.old }
    ensures long { result ≡ length (words_of (Err why)) }
    ensures put { out.new ≡ sets out.old 0 (words_of (Err why)) }
{
    match why {
        Refusal::Line(k) => put_line_words(out, k),
        Refusal::Edition => put_bytes(out, 0, b"line 1: the edition is not 1\n"),
        Refusal::Size(k) => put_size_words(out, k),
        _ => 0,
    }
}

// The same of a line.
fn put_line_words(out: &mut [u8], k: usize) -> usize
    requires { 128 ≤ length out.old }
    ensures long { result ≡ length (line_words k) }
    ensures put { out.new ≡ sets out.old 0 (line_words k) }
{
    match k {
        1 => put_bytes(out, 0, b"line 1: edition is missing or wrong\n"),
        2 => put_bytes(out, 0, b"line 2: states is missing or wrong\n"),
        3 => put_bytes(out, 0, b"line 3: observations is missing or wrong\n"),
        4 => put_bytes(
            out,
            0,
            b"line 4: a is missing or wrong, or not followed by states*states entries of eight digits and a newline\n",
        ),
        5 => put_bytes(
            out,
            0,
            b"line 5: q is missing or wrong, or not followed by states*states entries of eight digits and a newline\n",
        ),
        6 => put_bytes(
            out,
            0,
            b"line 6: h is missing or wrong, or not followed by observations*states entries of eight digits and a newline\n",
        ),
        7 => put_bytes(
            out,
            0,
            b"line 7: r is missing or wrong, or not followed by observations*observations entries of eight digits and a newline\n",
        ),
        _ => put_bytes(out, 0, b"line 8: something stands behind the last line\n"),
    }
}

// The same of a size.
fn put_size_words(out: &mut [u8], k: usize) -> usize
    requires { 128 ≤ length out.old }
    ensures long { result ≡ length (size_words k) }
    ensures put { out.new ≡ sets out.old 0 (size_words k) }
{
    if k == 0 {
        put_bytes(out, 0, b"line 2: states is not 1 to 16\n")
    } else {
        put_bytes(out, 0, b"line 3: observations is not 1 to 16\n")
    }
}
