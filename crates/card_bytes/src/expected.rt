// What is expected of a card that is written again: the card, but 7fc00000 at the places that a line
// names.
ghost use Rattle.std.specs.Prelude.{◌≡◌, ◌+◌, ◌≤◌, length};
ghost use Rattle.std.proofs.lemmas.List.Edits.{sets};
ghost use Rattle.card_bytes.specs.Expected.{quiet_text, text_after, word_after, texts_after, words_after, expected_text, expected_next};

// Puts 7fc00000 there.
fn put_quiet(text: &mut [u8], p: usize)
    requires { p + 8 ≤ length text.old }
    ensures { text.new ≡ sets text.old p quiet_text }
{
    text[p..p + 8].copy_from_slice(b"7fc00000");
}

// Puts it at the position that the word at `at` says: the position behind the word. Where the text has
// no such place the line is lost.
#[tactic(auto, unfolding(crate::specs::Expected::word_after, crate::specs::Expected::text_after))]
fn put_one(s: &[u8], at: usize, text: &mut [u8]) -> usize
    ensures behind { result ≡ word_after s.now at (length text.old) }
    ensures put { text.new ≡ text_after s.now at text.old }
{
    let w = lines::word_at(s, at);
    let p = w.bits as usize;
    if text.len() < p + 8 {
        return lines::LOST;
    }
    put_quiet(text, p);
    w.next
}

// Puts it at the places of `many` words: the position behind them.
fn put_all(s: &[u8], at: usize, many: usize, text: &mut [u8]) -> usize
    ensures behind { result ≡ words_after s.now at (length text.old) many }
    ensures put { text.new ≡ texts_after s.now at text.old many }
{
    let mut next = at;
    for _ in 0..many {
        next = put_one(s, next, text);
    }
    next
}

// Makes the text that is expected of a card of its length: how many places there are the word at `at`
// says, and those behind it where. The position behind them comes back; with more places than bytes the
// line is lost.
#[tactic(auto, unfolding(crate::specs::Expected::expected_next, crate::specs::Expected::expected_text))]
pub fn expect(s: &[u8], at: usize, card: &[u8], text: &mut [u8]) -> usize
    requires { length text.old ≡ length card.now }
    ensures behind { result ≡ expected_next s.now at (length card.now) }
    ensures made { text.new ≡ expected_text s.now at card.now }
{
    text.copy_from_slice(card);
    let w = lines::word_at(s, at);
    let many = w.bits as usize;
    if text.len() < many {
        return lines::LOST;
    }
    put_all(s, w.next, many, text)
}
