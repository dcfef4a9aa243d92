// The first pass of the inverse, in the lower triangle: the cell (i, j) holds what the definition has at
// (j, i), so that four neighbouring sums lie side by side. For the crates above, which have tested size
// and buffers; not for users.
#![tactic(auto)]

ghost use Rattle.std.specs.Prelude.{◌≡◌, ◌+◌, ◌*◌, ◌<◌, ◌≤◌, length};
ghost use Rattle.std.specs.Float.{binary32};
ghost use Rattle.grids.specs.Grid.{run, grid, cell};
ghost use Rattle.factors.specs.Rows.{solved_below};
ghost use Rattle.first_pass.specs.Below.{solved_cell};

mod sums;

// Row i, down to the diagonal.
fn solve_row(n: usize, i: usize, l: &[f32], inv: &mut [f32])
    requires { (i < n) × (i * n + n ≤ length l.now) × (i * n + n ≤ length inv.old) }
    ensures { inv.new ≡ run (i * n) (i + 1) (solved_cell binary32 n l.now inv.old i) inv.old }
{
    let d = data_type::recip(l[i * n + i]);
    let fours = i / 4;
    for f in 0..fours {
        let t = sums::four_sums(n, i, f * 4, &*l, inv);
        side_by_side::put(inv, i * n + f * 4, side_by_side::scaled(t, d));
    }
    for j in fours * 4..i {
        let t = sums::one_sum(n, i, j, &*l, inv);
        inv[i * n + j] = t * d;
    }
    inv[i * n + i] = 1.0 * d;
}

// The first pass from the lower factor l, in the lower triangle of inv.
pub fn solve(n: usize, l: &[f32], inv: &mut [f32])
    requires { (n * n ≤ length l.now) × (n * n ≤ length inv.old) }
    ensures { inv.new ≡ grid n n (solved_below binary32 (cell n l.now) (cell n inv.old) n) inv.old }
{
    for i in 0..n {
        solve_row(n, i, &*l, inv);
    }
}
