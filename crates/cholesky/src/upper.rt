// The strict upper triangle, cleared.
ghost use Rattle.std.specs.Prelude.{◌≡◌, ◌*◌, ◌<◌, ◌≤◌, length};
ghost use Rattle.grids.specs.Grid.{grid, cell};
ghost use Rattle.factors.specs.Decomposition.{lower};
ghost use Rattle.factors.specs.Steps.{clear_column};

// +0 in column i above the diagonal.
fn clear_column(n: usize, i: usize, t: &mut [f32])
    requires { (i < n) × (n * n ≤ length t.old) }
    ensures { t.new ≡ grid n n (clear_column (cell n t.old) i) t.old }
{
    for j in 0..i {
        t[j * n + i] = 0.0;
    }
}

// +0 in every cell above the diagonal.
pub fn clear_upper(n: usize, t: &mut [f32])
    requires { n * n ≤ length t.old }
    ensures { t.new ≡ grid n n (lower (cell n t.old)) t.old }
{
    for i in 0..n {
        clear_column(n, i, t);
    }
}
