// The inner sum of one cell of a row.
ghost use Rattle.std.specs.Prelude.{◌≡◌, ◌+◌, ◌*◌, ◌<◌, ◌≤◌, length};
ghost use Rattle.std.specs.Float.{binary32};
ghost use Rattle.grids.specs.Grid.{cell};
ghost use Rattle.factors.specs.Rows.{row_sum};

// inv(i, c) plus the sum of (−L(k, i))·inv(k, c), k from i + 1 on: the sum is formed first, from its
// first term. In the last row there are no terms.
pub fn back_one(n: usize, i: usize, c: usize, l: &[f32], inv: &[f32]) -> f32
    requires { (i < n) × (c < n) × (i * n + n ≤ length l.now) × (n * n ≤ length l.now) × (i * n + n ≤ length inv.now) × (n * n ≤ length inv.now) }
    ensures { result ≡ row_sum binary32 n (cell n l.now) (cell n inv.now) i c }
{
    let start = inv[i * n + c];
    if i + 1 == n {
        return start;
    }
    let p = i * n + n;
    let mut t = -l[p + i] * inv[p + c];
    for k in i + 2..n {
        t = t + -l[k * n + i] * inv[k * n + c];
    }
    start + t
}
