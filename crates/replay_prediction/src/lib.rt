// A line of the prediction, with its six buffers.
#![tactic(auto)]

use lists::{Seen, Shape, head_at, lend, seen};

// The call of a line, compared.
pub fn compare(s: &[u8], at: usize, h: Shape) -> Seen {
    let head = head_at(s, at, h);
    let mut x = lend(s, head.next, true);
    let a = lend(s, x.next, true);
    let mut p = lend(s, a.next, true);
    let q = lend(s, p.next, true);
    let mut predicted = lend(s, q.next, true);
    let mut temp = lend(s, predicted.next, true);
    let v = kalman::predict(
        head.first,
        x.numbers_mut(),
        a.numbers(),
        p.numbers_mut(),
        q.numbers(),
        predicted.numbers_mut(),
        temp.numbers_mut(),
    );
    let o = seen::answer_met(s, temp.next, v);
    seen::buffers_met(
        s,
        o,
        &[
            x.numbers(),
            a.numbers(),
            p.numbers(),
            q.numbers(),
            predicted.numbers(),
            temp.numbers(),
        ],
    )
}
