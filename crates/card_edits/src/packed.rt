// The bytes of a card, as a line packs them.

// Puts the len bytes that the words from a position on hold, four to a word and the first of them
// highest, into the front of the card: the position behind the words. A card of another length than
// the words have, or with no room for them, is lost.
pub fn unpack(s: &[u8], at: usize, len: usize, card: &mut [u8]) -> usize {
    if card.len() < len {
        return lines::LOST;
    }
    let mut next = at;
    for word in card[..len].chunks_mut(4) {
        let w = lines::word_at(s, next);
        for (byte, x) in word.iter_mut().zip(w.bits.to_be_bytes()) {
            *byte = x;
        }
        next = w.next;
    }
    next
}
