// Settings cards, for C and Rust programs.
#![tactic(auto)]

ghost use Rattle.std.specs.Float.{binary32};
ghost use Rattle.c_codes.specs.Code.{Told};
ghost use Rattle.c_cards.specs.Into.{CardInto};
ghost use Rattle.c_cards.specs.Out.{CardOut, LengthOut};

// The card's matrices in the front of a, q, h and r, and its sizes in states and observations; a
// refused call leaves all of them as lent.
#[unsafe(no_mangle)]
pub extern "C" fn yurgamysh_card_read(
    card: &[u8],
    a: &mut [f32],
    q: &mut [f32],
    h: &mut [f32],
    r: &mut [f32],
    states: &mut usize,
    observations: &mut usize,
) -> usize
    ensures { Told (λ v. CardInto binary32 8 card.now a.old q.old h.old r.old states.old observations.old v a.new q.new h.new r.new states.new observations.new) result }
{
    match cards::read(card, a, q, h, r) {
        Ok((n, m)) => {
            *states = n;
            *observations = m;
            0
        }
        Err(why) => c_codes::code_of(Err(why)),
    }
}

// The card of so many states and observations and these matrices in the front of the bytes, and how
// long it is in length; a refused call leaves both as lent.
#[unsafe(no_mangle)]
pub extern "C" fn yurgamysh_card_write(
    states: usize,
    observations: usize,
    a: &[f32],
    q: &[f32],
    h: &[f32],
    r: &[f32],
    card: &mut [u8],
    length: &mut usize,
) -> usize
    ensures { Told (λ v. CardOut binary32 8 states observations a.now q.now h.now r.now card.old length.old v card.new length.new) result }
{
    match cards::write(states, observations, &*a, &*q, &*h, &*r, card) {
        Ok(l) => {
            *length = l;
            0
        }
        Err(v) => c_codes::code_of(Err(v)),
    }
}

// How long the card of so many states and observations is, in length; a refused call leaves it as lent.
#[unsafe(no_mangle)]
pub extern "C" fn yurgamysh_card_length(
    states: usize,
    observations: usize,
    length: &mut usize,
) -> usize
    ensures { Told (λ v. LengthOut 8 states observations length.old v length.new) result }
{
    match cards::length_of(states, observations) {
        Ok(l) => {
            *length = l;
            0
        }
        Err(v) => c_codes::code_of(Err(v)),
    }
}
