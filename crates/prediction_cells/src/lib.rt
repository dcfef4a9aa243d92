// The work of both predictions in one call, for the crate above, which has tested sizes and buffers; not
// for users: one, two and four states in straight lines, the others by the products.
#![tactic(auto)]

ghost use Rattle.std.specs.Prelude.{◌≡◌, ◌*◌, ◌≤◌, length};
ghost use Rattle.std.specs.Float.{binary32};
ghost use Rattle.grids.specs.Grid.{run, grid};
ghost use Rattle.filters.specs.Prediction.{predicted_x, temp_p, predicted_p};

// predicted_x = A·x, copied to x; temp_P = A·P and P = temp_P·Aᵀ + Q.
pub fn predict_cells(
    n: usize,
    x: &mut [f32],
    a: &[f32],
    p: &mut [f32],
    q: &[f32],
    predicted: &mut [f32],
    temp: &mut [f32],
)
    requires { (1 ≤ n) × (n ≤ length x.old) × (n * n ≤ length a.now) × (n * n ≤ length p.old) × (n * n ≤ length q.now) × (n ≤ length predicted.old) × (n * n ≤ length temp.old) × (n ≤ 16) }
    ensures x { x.new ≡ run 0 n (predicted_x binary32 n a.now x.old) x.old }
    ensures predicted { predicted.new ≡ run 0 n (predicted_x binary32 n a.now x.old) predicted.old }
    ensures p { p.new ≡ grid n n (predicted_p binary32 n a.now p.old q.now) p.old }
    ensures temp { temp.new ≡ grid n n (temp_p binary32 n a.now p.old) temp.old }
{
    if n == 1 {
        small_predictions::predict_one(x, &*a, p, &*q, predicted, temp);
        return;
    }
    if n == 2 {
        small_predictions::predict_two(x, &*a, p, &*q, predicted, temp);
        return;
    }
    if n == 4 {
        four_states::predict_four(x, &*a, p, &*q, predicted, temp);
        return;
    }
    if 13 <= n {
        predictions::predict_wide(n, x, &*a, p, &*q, predicted, temp);
        return;
    }
    predictions::predict_x_cells(n, x, &*a, predicted);
    predictions::predict_p_cells(n, &*a, p, &*q, temp);
}
