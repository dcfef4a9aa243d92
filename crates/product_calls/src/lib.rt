// Calls of the products.
#![tactic(auto)]

use answers::{Answer, Refusal};
use jobs::Job;
use lists::Head;

// The call of a product. Any other job gives an answer that no call of the library has.
pub fn product(j: Job, h: Head, a: &[f32], b: &[f32], c: &mut [f32], d: &mut [f32]) -> Answer {
    let r = h.first;
    let k = h.second;
    let w = h.third;
    match j {
        Job::Mult => products::mult(r, k, w, &*a, &*b, c),
        Job::MultBuffered => products::mult_buffered(r, k, w, &*a, &*b, c, d),
        Job::MultTransb => products::mult_transb(r, k, w, &*a, &*b, c),
        Job::MultaddTransb => products::multadd_transb(r, k, w, &*a, &*b, c),
        Job::MultscaleTransb => products::multscale_transb(r, k, w, &*a, &*b, h.u, c),
        Job::MultRowvector => products::mult_rowvector(r, k, &*a, &*b, c),
        Job::MultaddRowvector => products::multadd_rowvector(r, k, &*a, &*b, c),
        _ => Err(Refusal::Size(99)),
    }
}
