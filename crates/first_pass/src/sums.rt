// The sums of a row's cells, one by one and four side by side: two functions, so that the four stay in
// registers. Each begins with its first term, and is then added to +0.
ghost use Rattle.std.specs.Prelude.{◌≡◌, ◌+◌, ◌*◌, ◌<◌, ◌≤◌, length};
ghost use Rattle.std.specs.Float.{binary32};
ghost use Rattle.side_by_side.specs.Chunks.{Chunk};
ghost use Rattle.first_pass.specs.Below.{terms_to, all_terms};

use side_by_side::Four;

// The sum of the cell (i, j), left of the diagonal.
pub fn one_sum(n: usize, i: usize, j: usize, l: &[f32], inv: &[f32]) -> f32
    requires { (j < i) × (i < n) × (i * n + n ≤ length l.now) × (i * n ≤ length inv.now) }
    ensures { result ≡ all_terms binary32 n l.now inv.now i j }
{
    let row = i * n;
    let mut sum = -l[row + j] * inv[j * n + j];
    for k in j + 1..i {
        sum = sum + -l[row + k] * inv[k * n + j];
    }
    0.0 + sum
}

// The terms of rows j to j + 3 in the sums of the cells (i, j) to (i, j + 3): four, three, two and one.
fn triangle(n: usize, i: usize, j: usize, l: &[f32], inv: &[f32]) -> Four
    requires { (j + 4 ≤ i) × (i < n) × (i * n + n ≤ length l.now) × (j * n + 4 * n ≤ length inv.now) }
    ensures { (result.t0 ≡ terms_to binary32 n l.now inv.now i j (j + 4))
        × (result.t1 ≡ terms_to binary32 n l.now inv.now i (j + 1) (j + 4))
        × (result.t2 ≡ terms_to binary32 n l.now inv.now i (j + 2) (j + 4))
        × (result.t3 ≡ terms_to binary32 n l.now inv.now i (j + 3) (j + 4)) }
{
    let p = i * n + j;
    let q = j * n + j;
    let x0 = -l[p];
    let x1 = -l[p + 1];
    let x2 = -l[p + 2];
    let x3 = -l[p + 3];
    let q1 = q + n;
    let q2 = q1 + n;
    let q3 = q2 + n;
    Four {
        t0: x0 * inv[q] + x1 * inv[q1] + x2 * inv[q2] + x3 * inv[q3],
        t1: x1 * inv[q1 + 1] + x2 * inv[q2 + 1] + x3 * inv[q3 + 1],
        t2: x2 * inv[q2 + 2] + x3 * inv[q3 + 2],
        t3: x3 * inv[q3 + 3],
    }
}

// The sums of the cells (i, j) to (i, j + 3), left of the diagonal.
pub fn four_sums(n: usize, i: usize, j: usize, l: &[f32], inv: &[f32]) -> Four
    requires { (j + 4 ≤ i) × (i < n) × (i * n + n ≤ length l.now) × (i * n ≤ length inv.now) }
    ensures { Chunk (all_terms binary32 n l.now inv.now i) j result }
{
    let mut t = triangle(n, i, j, &*l, &*inv);
    for k in j + 4..i {
        t = side_by_side::more(t, -l[i * n + k], &*inv, k * n + j);
    }
    Four {
        t0: 0.0 + t.t0,
        t1: 0.0 + t.t1,
        t2: 0.0 + t.t2,
        t3: 0.0 + t.t3,
    }
}
