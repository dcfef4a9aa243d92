// The work of the cell functions, for the crates above, which have tested sizes and buffers; not for
// users.
ghost use Rattle.std.specs.Prelude.{◌≡◌, ◌*◌, ◌<◌, ◌≤◌, length, get_or};
ghost use Rattle.std.specs.Float.{nan};
ghost use Rattle.grids.specs.Grid.{cell, run, grid, diagonal};

// x in the first n cells of m.
pub fn fill_cells(n: usize, m: &mut [f32], x: f32)
    requires { n ≤ length m.old }
    ensures { m.new ≡ run 0 n (λ i. x) m.old }
{
    m[..n].fill(x);
}

// The first n cells of from in the first n cells of to. One by one: `copy_from_slice` becomes a call of
// memmove, and of C's functions the library takes `memset` alone.
#[tactic(auto, using(grids::proofs::Grids::run_none, grids::proofs::Grids::run_more))]
pub fn copy_cells(n: usize, from: &[f32], to: &mut [f32])
    requires { (n ≤ length from.now) × (n ≤ length to.old) }
    ensures { to.new ≡ run 0 n (λ i. get_or from.now i nan) to.old }
{
    for i in 0..n {
        to[i] = from[i];
    }
}

// A column of a rows by cols matrix in the first rows cells of to.
#[tactic(auto, using(grids::proofs::Grids::run_none, grids::proofs::Grids::run_more))]
pub fn copy_column(rows: usize, cols: usize, from: &[f32], column: usize, to: &mut [f32])
    requires { (column < cols) × (rows * cols ≤ length from.now) × (rows ≤ length to.old) }
    ensures { to.new ≡ run 0 rows (λ r. cell cols from.now r column) to.old }
{
    for r in 0..rows {
        to[r] = from[r * cols + column];
    }
}

// x on the diagonal of an n by n matrix; every other entry stays.
pub fn fill_diagonal(n: usize, m: &mut [f32], x: f32)
    requires { n * n ≤ length m.old }
    ensures { m.new ≡ grid n n (diagonal x (cell n m.old)) m.old }
{
    for i in 0..n {
        m[i * n + i] = x;
    }
}
