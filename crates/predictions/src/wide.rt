// Both predictions in one call, for thirteen states or more.
ghost use Rattle.std.specs.Prelude.{◌≡◌, ◌*◌, ◌≤◌, length};
ghost use Rattle.std.specs.Float.{binary32};
ghost use Rattle.grids.specs.Grid.{run, grid};
ghost use Rattle.filters.specs.Prediction.{predicted_x, temp_p, predicted_p};

// predicted_x = A·x, copied to x, and P anew: A·x by the turned A that the second product of P has. A call of
// its own, whose array takes no stack where there are fewer states.
#[inline(never)]
pub fn predict_wide(
    n: usize,
    x: &mut [f32],
    a: &[f32],
    p: &mut [f32],
    q: &[f32],
    predicted: &mut [f32],
    temp: &mut [f32],
)
    requires { (13 ≤ n) × (n ≤ 16) × (n ≤ length x.old) × (n * n ≤ length a.now) × (n * n ≤ length p.old) × (n * n ≤ length q.now) × (n ≤ length predicted.old) × (n * n ≤ length temp.old) }
    ensures x { x.new ≡ run 0 n (predicted_x binary32 n a.now x.old) x.old }
    ensures predicted { predicted.new ≡ run 0 n (predicted_x binary32 n a.now x.old) predicted.old }
    ensures p { p.new ≡ grid n n (predicted_p binary32 n a.now p.old q.now) p.old }
    ensures temp { temp.new ≡ grid n n (temp_p binary32 n a.now p.old) temp.old }
{
    let mut t: [f32; 256] = [0.0; 256];
    crate::by_turned(n, &*a, p, temp, &mut t);
    turned_vector::rowvector_turned(n, n, &t, x, predicted);
    row_major::cores::copy_cells(n, predicted, x);
    sums::cores::add_cells_a(n * n, p, &*q);
}
