// Predictions of one and of two states in straight lines, for the crate above, which has tested sizes
// and buffers; not for users. Every operand is read first and every result stored last. Each sum has the
// order of its definition, and what is stored has its start.
#![tactic(auto)]

ghost use Rattle.std.specs.Prelude.{◌≡◌, ◌≤◌, length};
ghost use Rattle.std.specs.Float.{binary32};
ghost use Rattle.grids.specs.Grid.{run, grid};
ghost use Rattle.filters.specs.Prediction.{predicted_x, temp_p, predicted_p};

// x, P, predicted_x and temp_P of one state.
pub fn predict_one(
    x: &mut [f32],
    a: &[f32],
    p: &mut [f32],
    q: &[f32],
    predicted: &mut [f32],
    temp: &mut [f32],
)
    requires { (1 ≤ length x.old) × (1 ≤ length a.now) × (1 ≤ length p.old) × (1 ≤ length q.now) × (1 ≤ length predicted.old) × (1 ≤ length temp.old) }
    ensures x { x.new ≡ run 0 1 (predicted_x binary32 1 a.now x.old) x.old }
    ensures predicted { predicted.new ≡ run 0 1 (predicted_x binary32 1 a.now x.old) predicted.old }
    ensures p { p.new ≡ grid 1 1 (predicted_p binary32 1 a.now p.old q.now) p.old }
    ensures temp { temp.new ≡ grid 1 1 (temp_p binary32 1 a.now p.old) temp.old }
{
    let x0 = x[0];
    let a00 = a[0];
    let p00 = p[0];
    let q00 = q[0];
    let y0 = a00 * x0;
    let u00 = a00 * p00;
    let n00 = late_zeros::one_more(u00, a00, q00);
    x[0] = y0;
    predicted[0] = y0;
    temp[0] = 0.0 + u00;
    p[0] = n00;
}

// x, P, predicted_x and temp_P of two states.
pub fn predict_two(
    x: &mut [f32],
    a: &[f32],
    p: &mut [f32],
    q: &[f32],
    predicted: &mut [f32],
    temp: &mut [f32],
)
    requires { (2 ≤ length x.old) × (4 ≤ length a.now) × (4 ≤ length p.old) × (4 ≤ length q.now) × (2 ≤ length predicted.old) × (4 ≤ length temp.old) }
    ensures x { x.new ≡ run 0 2 (predicted_x binary32 2 a.now x.old) x.old }
    ensures predicted { predicted.new ≡ run 0 2 (predicted_x binary32 2 a.now x.old) predicted.old }
    ensures p { p.new ≡ grid 2 2 (predicted_p binary32 2 a.now p.old q.now) p.old }
    ensures temp { temp.new ≡ grid 2 2 (temp_p binary32 2 a.now p.old) temp.old }
{
    let x0 = x[0];
    let x1 = x[1];
    let a00 = a[0];
    let a01 = a[1];
    let a10 = a[2];
    let a11 = a[3];
    let p00 = p[0];
    let p01 = p[1];
    let p10 = p[2];
    let p11 = p[3];
    let q00 = q[0];
    let q01 = q[1];
    let q10 = q[2];
    let q11 = q[3];
    let y0 = a00 * x0 + a01 * x1;
    let y1 = a10 * x0 + a11 * x1;
    let u00 = a00 * p00 + a01 * p10;
    let u01 = a00 * p01 + a01 * p11;
    let u10 = a10 * p00 + a11 * p10;
    let u11 = a10 * p01 + a11 * p11;
    let n00 = late_zeros::two_more(u00, a00, u01, a01, q00);
    let n01 = late_zeros::two_more(u00, a10, u01, a11, q01);
    let n10 = late_zeros::two_more(u10, a00, u11, a01, q10);
    let n11 = late_zeros::two_more(u10, a10, u11, a11, q11);
    side_by_side::put_two(x, 0, y0, y1);
    side_by_side::put_two(predicted, 0, y0, y1);
    side_by_side::put_four(temp, 0, 0.0 + u00, 0.0 + u01, 0.0 + u10, 0.0 + u11);
    side_by_side::put_four(p, 0, n00, n01, n10, n11);
}
