// The work of the predictions, for the crates above, which have tested sizes and buffers; not for
// users.
#![tactic(auto)]

ghost use Rattle.std.specs.Prelude.{◌≡◌, ◌*◌, ◌≤◌, length};
ghost use Rattle.std.specs.Float.{binary32};
ghost use Rattle.grids.specs.Grid.{cell, run, grid};
ghost use Rattle.entries.specs.Entries.{product, product_t};
ghost use Rattle.filters.specs.Prediction.{predicted_x, temp_p, predicted_p};

mod wide;

pub use wide::predict_wide;

// predicted_x = A·x, copied to x.
pub fn predict_x_cells(n: usize, x: &mut [f32], a: &[f32], predicted: &mut [f32])
    requires { (1 ≤ n) × (n ≤ length x.old) × (n * n ≤ length a.now) × (n ≤ length predicted.old) }
    ensures x { x.new ≡ run 0 n (predicted_x binary32 n a.now x.old) x.old }
    ensures predicted { predicted.new ≡ run 0 n (predicted_x binary32 n a.now x.old) predicted.old }
{
    times_vector::rowvector_cells(n, n, &*a, x, predicted);
    row_major::cores::copy_cells(n, predicted, x);
}

// temp_P = A·P and P = temp_P·Aᵀ for four states or more, by way of Aᵀ in t. That is written first, so that
// no number of it is on its way to memory when it is read.
fn by_turned(n: usize, a: &[f32], p: &mut [f32], temp: &mut [f32], t: &mut [f32])
    requires { (4 ≤ n) × (n ≤ 16) × (n * n ≤ length a.now) × (n * n ≤ length p.old) × (n * n ≤ length temp.old) × (n * n ≤ length t.old) }
    ensures temp { temp.new ≡ grid n n (product binary32 n n a.now p.old) temp.old }
    ensures p { p.new ≡ grid n n (product_t binary32 n temp.new a.now) p.old }
    ensures t { t.new ≡ grid n n (λ k j. cell n a.now j k) t.old }
{
    turned::turn(n, n, &*a, t);
    times_matrix::wide_cells(n, n, n, &*a, p, temp);
    times_matrix::wide_cells(n, n, n, temp, t, p);
}

// The same for four to eight states. An array is cleared before it is used, so that few numbers have a
// small one.
fn by_small(n: usize, a: &[f32], p: &mut [f32], temp: &mut [f32])
    requires { (4 ≤ n) × (n ≤ 8) × (n * n ≤ length a.now) × (n * n ≤ length p.old) × (n * n ≤ length temp.old) }
    ensures temp { temp.new ≡ grid n n (product binary32 n n a.now p.old) temp.old }
    ensures p { p.new ≡ grid n n (product_t binary32 n temp.new a.now) p.old }
{
    let mut t: [f32; 64] = [0.0; 64];
    by_turned(n, &*a, p, temp, &mut t);
}

// temp_P = A·P and P = temp_P·Aᵀ. Six states are common: there the compiler knows the size, and turns A
// without a loop.
fn both_products(n: usize, a: &[f32], p: &mut [f32], temp: &mut [f32])
    requires { (1 ≤ n) × (n ≤ 16) × (n * n ≤ length a.now) × (n * n ≤ length p.old) × (n * n ≤ length temp.old) }
    ensures temp { temp.new ≡ grid n n (product binary32 n n a.now p.old) temp.old }
    ensures p { p.new ≡ grid n n (product_t binary32 n temp.new a.now) p.old }
{
    if n < 4 {
        times_matrix::mult_cells(n, n, n, &*a, p, temp);
        times_transpose::transb_cells(n, n, n, temp, &*a, p);
    } else if n == 6 {
        by_small(n, &*a, p, temp);
    } else if n <= 8 {
        by_small(n, &*a, p, temp);
    } else {
        let mut t: [f32; 256] = [0.0; 256];
        by_turned(n, &*a, p, temp, &mut t);
    }
}

// temp_P = A·P, P = temp_P·Aᵀ, P = P + Q.
pub fn predict_p_cells(n: usize, a: &[f32], p: &mut [f32], q: &[f32], temp: &mut [f32])
    requires { (1 ≤ n) × (n * n ≤ length a.now) × (n * n ≤ length p.old) × (n * n ≤ length q.now) × (n * n ≤ length temp.old) × (n ≤ 16) }
    ensures p { p.new ≡ grid n n (predicted_p binary32 n a.now p.old q.now) p.old }
    ensures temp { temp.new ≡ grid n n (temp_p binary32 n a.now p.old) temp.old }
{
    both_products(n, &*a, p, temp);
    sums::cores::add_cells_a(n * n, p, &*q);
}
