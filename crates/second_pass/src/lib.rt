// The second pass of the inverse, for `inverse` above, which has tested size and buffers; not for users.
// It begins from the lower triangle. Columns that are done are kept as rows too, so that what the sums of
// neighbouring cells read lies side by side, and four of them run together.
#![tactic(auto)]

ghost use Rattle.std.specs.Prelude.{◌≡◌, ◌*◌, ◌≤◌, length};
ghost use Rattle.std.specs.Float.{binary32};
ghost use Rattle.grids.specs.Grid.{grid, cell};
ghost use Rattle.factors.specs.Inverse.{back};
ghost use Rattle.factors.specs.Rows.{mirrored};

mod fours;
mod ones;
mod rows;

// The second pass, from what the lower triangle of inv holds: both sides of the diagonal.
pub fn solve_back(n: usize, l: &[f32], inv: &mut [f32])
    requires { (n * n ≤ length l.now) × (n * n ≤ length inv.old) }
    ensures { inv.new ≡ grid n n (back binary32 n (cell n l.now) (mirrored (cell n inv.old)) n) inv.old }
{
    for i in (0..n).rev() {
        rows::back_row(n, i, &*l, inv);
    }
}
