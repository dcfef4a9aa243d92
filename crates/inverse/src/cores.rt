// The work of the inverse, for the crates above, which have tested size and buffers; not for users.
ghost use Rattle.std.specs.Prelude.{◌≡◌, ◌*◌, ◌≤◌, length};
ghost use Rattle.std.specs.Float.{binary32};
ghost use Rattle.grids.specs.Grid.{grid, cell};
ghost use Rattle.factors.specs.Inverse.{inverse};

// inv becomes the inverse of the matrix whose lower factor is l, pass after pass.
fn by_passes(n: usize, l: &[f32], inv: &mut [f32])
    requires { (n * n ≤ length l.now) × (n * n ≤ length inv.old) }
    ensures { inv.new ≡ grid n n (inverse binary32 n (cell n l.now) (cell n inv.old)) inv.old }
{
    first_pass::solve(n, &*l, inv);
    second_pass::solve_back(n, &*l, inv);
}

// The same, of three by three in straight lines.
pub fn invert_cells(n: usize, l: &[f32], inv: &mut [f32])
    requires { (n * n ≤ length l.now) × (n * n ≤ length inv.old) }
    ensures { inv.new ≡ grid n n (inverse binary32 n (cell n l.now) (cell n inv.old)) inv.old }
{
    if n == 3 {
        three_inverse::invert_three(&*l, inv);
    } else {
        by_passes(n, &*l, inv);
    }
}
