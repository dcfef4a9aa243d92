// Calls of the sums, of the innovation and of the halves of the prediction.
#![tactic(auto)]

use answers::Answer;
use jobs::Job;
use lists::Head;

// The call of a sum, of the innovation or of half a prediction; any other is one of a product.
pub fn sum(j: Job, h: Head, a: &mut [f32], b: &mut [f32], c: &mut [f32], d: &mut [f32]) -> Answer {
    let n = h.first;
    let m = h.second;
    match j {
        Job::Sub => sums::sub(n, m, a, b, c),
        Job::SubInplaceA => sums::sub_inplace_a(n, m, a, b),
        Job::SubInplaceB => sums::sub_inplace_b(n, m, a, b),
        Job::AddInplaceA => sums::add_inplace_a(n, m, a, b),
        Job::AddInplaceB => sums::add_inplace_b(n, m, a, b),
        Job::Innovation => innovations::innovation(n, m, a, b, c, d),
        Job::PredictX => kalman::predict_x(n, a, b, c),
        Job::PredictP => kalman::predict_p(n, a, b, c, d),
        _ => product_calls::product(j, h, a, b, c, d),
    }
}
