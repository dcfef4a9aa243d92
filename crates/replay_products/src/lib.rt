// A line of a product, a sum, the innovation or half a prediction: at most four buffers.
#![tactic(auto)]

use jobs::Job;
use lists::{Seen, Shape, head_at, lend, seen};

// The call of a line, compared.
pub fn compare(s: &[u8], at: usize, j: Job, h: Shape) -> Seen {
    let head = head_at(s, at, h);
    let mut a = lend(s, head.next, 0 < h.buffers);
    let mut b = lend(s, a.next, 1 < h.buffers);
    let mut c = lend(s, b.next, 2 < h.buffers);
    let mut d = lend(s, c.next, 3 < h.buffers);
    let v = sum_calls::sum(
        j,
        head,
        a.numbers_mut(),
        b.numbers_mut(),
        c.numbers_mut(),
        d.numbers_mut(),
    );
    let answered = seen::answer_met(s, d.next, v);
    let all = [a.numbers(), b.numbers(), c.numbers(), d.numbers()];
    seen::buffers_met(s, answered, &all[..h.buffers.min(4)])
}
