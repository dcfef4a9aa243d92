// A line of the one-state filter: the record of one yarn, seven words behind their count, six numbers
// and how many corrections were refused in a row, and for a correction the reading.
#![tactic(auto)]

ghost use Rattle.std.specs.Prelude.{◌≡◌};
ghost use Rattle.replay_yarn.specs.Yarn.{seven_at, blind_at, lent_at, yarn_met, predict_met, correct_met};

use answers::Answer;
use lists::{Seen, Shape, Spelt, head_at, seen};
use one_state::{Corrected, OneState};

// The position behind a count of seven. Behind any other the line is lost.
fn seven_at(s: &[u8], at: usize) -> usize
    ensures { result ≡ seven_at s.now at }
{
    let count = lines::word_at(s, at);
    if count.bits == 7 {
        count.next
    } else {
        lines::LOST
    }
}

// The byte at a position. Behind a larger number the line is lost.
fn blind_at(s: &[u8], at: usize) -> Spelt<u8>
    ensures { result ≡ blind_at s.now at }
{
    let w = lines::word_at(s, at);
    match u8::try_from(w.bits) {
        Ok(value) => Spelt {
            value,
            next: w.next,
        },
        Err(_) => Spelt {
            value: 0,
            next: lines::LOST,
        },
    }
}

// The record at a position.
#[tactic(auto, unfolding(crate::specs::Yarn::lent_at))]
fn lend(s: &[u8], at: usize) -> Spelt<OneState>
    ensures { result ≡ lent_at s.now at }
{
    let x = lines::word_at(s, seven_at(s, at));
    let p = lines::word_at(s, x.next);
    let a = lines::word_at(s, p.next);
    let q = lines::word_at(s, a.next);
    let h = lines::word_at(s, q.next);
    let r = lines::word_at(s, h.next);
    let b = blind_at(s, r.next);
    Spelt {
        value: OneState {
            x: lines::float_of(x.bits),
            p: lines::float_of(p.bits),
            a: lines::float_of(a.bits),
            q: lines::float_of(q.bits),
            h: lines::float_of(h.bits),
            r: lines::float_of(r.bits),
            blind: b.value,
        },
        next: b.next,
    }
}

// The answer and the record that came back against the words at a position.
#[tactic(auto, unfolding(crate::specs::Yarn::yarn_met))]
fn met(s: &[u8], at: usize, v: Answer, yarn: OneState) -> Seen
    ensures { result ≡ yarn_met s.now at v yarn }
{
    let mut o = seen::answer_met(s, at, v);
    o.next = seven_at(s, o.next);
    let x = seen::float_met(s, o, 0, 0, yarn.x);
    let p = seen::float_met(s, x, 0, 1, yarn.p);
    let a = seen::float_met(s, p, 0, 2, yarn.a);
    let q = seen::float_met(s, a, 0, 3, yarn.q);
    let h = seen::float_met(s, q, 0, 4, yarn.h);
    let r = seen::float_met(s, h, 0, 5, yarn.r);
    seen::whole_met(s, r, 0, 6, yarn.blind as usize)
}

// The prediction of a line, compared.
#[tactic(auto, unfolding(crate::specs::Yarn::predict_met))]
pub fn predict(s: &[u8], at: usize, h: Shape) -> Seen
    ensures { result ≡ predict_met s.now at h }
{
    let head = head_at(s, at, h);
    let lent = lend(s, head.next);
    let yarn = lent.value;
    met(s, lent.next, Ok(()), yarn.predict())
}

// The correction of a line, compared.
#[tactic(auto, unfolding(crate::specs::Yarn::correct_met))]
pub fn correct(s: &[u8], at: usize, h: Shape) -> Seen
    ensures { result ≡ correct_met s.now at h }
{
    let head = head_at(s, at, h);
    let lent = lend(s, head.next);
    let yarn = lent.value;
    match yarn.correct(head.u) {
        Corrected::Accepted(next) => met(s, lent.next, Ok(()), next),
        Corrected::Refused(same, why) => met(s, lent.next, why, same),
    }
}
