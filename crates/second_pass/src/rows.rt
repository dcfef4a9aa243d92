// A row of the second pass, and its column.
ghost use Rattle.std.specs.Prelude.{◌≡◌, ◌+◌, ◌*◌, ◌<◌, ◌≤◌, length, set};
ghost use Rattle.std.specs.Float.{binary32};
ghost use Rattle.grids.specs.Grid.{grid, cell};
ghost use Rattle.factors.specs.Rows.{back_row};

use crate::{fours, ones};
use side_by_side::Four;

// The four, in cells of c: at, and each w further.
fn put_down(c: &mut [f32], at: usize, w: usize, t: Four)
    requires { at + w + w + w < length c.old }
    ensures { c.new ≡ set (set (set (set c.old at t.t0) (at + w) t.t1) (at + w + w) t.t2) (at + w + w + w) t.t3 }
{
    c[at] = t.t0;
    c[at + w] = t.t1;
    c[at + w + w] = t.t2;
    c[at + w + w + w] = t.t3;
}

// Row i and column i, to the diagonal. Where a four ends on it, the diagonal's cell is written twice
// with the same number.
pub fn back_row(n: usize, i: usize, l: &[f32], inv: &mut [f32])
    requires { (i < n) × (i * n + n ≤ length l.now) × (n * n ≤ length l.now) × (i * n + n ≤ length inv.old) × (n * n ≤ length inv.old) }
    ensures { inv.new ≡ grid n n (back_row binary32 n (cell n l.now) (cell n inv.old) i) inv.old }
{
    let d = data_type::recip(l[i * n + i]);
    let fours = (i + 1) / 4;
    for f in 0..fours {
        let c = f * 4;
        let v = side_by_side::scaled(fours::back_four(n, i, c, &*l, inv), d);
        side_by_side::put(inv, i * n + c, v);
        put_down(inv, c * n + i, n, v);
    }
    for c in fours * 4..i + 1 {
        let v = ones::back_one(n, i, c, &*l, inv) * d;
        inv[i * n + c] = v;
        inv[c * n + i] = v;
    }
}
