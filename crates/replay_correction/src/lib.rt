// A line of the correction, with its twelve buffers, or of the update from a given y, which takes no z.
#![tactic(auto)]

use answers::Answer;
use correction_buffers::{Buffers, compared, read};
use lists::{Seen, Shape, head_at, seen};

// The call of the correction, or of the update where z is left out.
fn called(n: usize, m: usize, b: &mut Buffers, with_z: bool) -> Answer {
    if with_z {
        readings::correct(
            n,
            m,
            b.x.numbers_mut(),
            b.p.numbers_mut(),
            b.h.numbers(),
            b.z.numbers(),
            b.r.numbers(),
            b.y.numbers_mut(),
            b.s.numbers_mut(),
            b.k.numbers_mut(),
            b.inverse.numbers_mut(),
            b.hp.numbers_mut(),
            b.pht.numbers_mut(),
            b.khp.numbers_mut(),
        )
    } else {
        innovations::update_with_innovation(
            n,
            m,
            b.x.numbers_mut(),
            b.p.numbers_mut(),
            b.h.numbers(),
            b.r.numbers(),
            b.y.numbers(),
            b.s.numbers_mut(),
            b.k.numbers_mut(),
            b.inverse.numbers_mut(),
            b.hp.numbers_mut(),
            b.pht.numbers_mut(),
            b.khp.numbers_mut(),
        )
    }
}

// The call of a line, compared.
pub fn compare(t: &[u8], at: usize, f: Shape, with_z: bool) -> Seen {
    let head = head_at(t, at, f);
    let mut b = read(t, head.next, with_z);
    let v = called(head.first, head.second, &mut b, with_z);
    let o = seen::answer_met(t, b.khp.next, v);
    compared(t, o, &b, with_z)
}
