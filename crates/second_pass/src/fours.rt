// The inner sums of four neighbouring cells of a row, side by side: apart from the sum of one, so that the
// four stay in registers.
ghost use Rattle.std.specs.Prelude.{◌+◌, ◌*◌, ◌<◌, ◌≤◌, length};
ghost use Rattle.std.specs.Float.{binary32};
ghost use Rattle.side_by_side.specs.Chunks.{Chunk};
ghost use Rattle.grids.specs.Grid.{cell};
ghost use Rattle.factors.specs.Rows.{row_sum};

use side_by_side::Four;

// inv(i, c) to inv(i, c + 3), each plus its sum, of (−L(k, i))·inv(k, c) and so on, k from i + 1 on:
// the sum is formed first, from its first term. In the last row there are no terms.
pub fn back_four(n: usize, i: usize, c: usize, l: &[f32], inv: &[f32]) -> Four
    requires { (i < n) × (c + 4 ≤ n) × (i * n + n ≤ length l.now) × (n * n ≤ length l.now) × (i * n + n ≤ length inv.now) × (n * n ≤ length inv.now) }
    ensures { Chunk (row_sum binary32 n (cell n l.now) (cell n inv.now) i) c result }
{
    let start = side_by_side::read(&*inv, i * n + c);
    if i + 1 == n {
        return start;
    }
    let p = i * n + n;
    let mut t = side_by_side::times(-l[p + i], &*inv, p + c, 1);
    for k in i + 2..n {
        t = side_by_side::more(t, -l[k * n + i], &*inv, k * n + c);
    }
    side_by_side::plus(start, t)
}
