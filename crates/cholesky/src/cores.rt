// The work of the decomposition, for the crates above, which have tested size and buffer; not for
// users.
ghost use Rattle.std.specs.Prelude.{◌≡◌, ◌*◌, ◌≤◌, length};
ghost use Rattle.std.specs.Float.{binary32};
ghost use Rattle.grids.specs.Grid.{grid, cell};
ghost use Rattle.factors.specs.Decomposition.{reached, decomposed};

use crate::upper;

// t becomes its lower factor, and n comes back; or the index of the pivot that is refused.
pub fn decompose_cells(n: usize, t: &mut [f32]) -> usize
    requires { n * n ≤ length t.old }
    ensures index { result ≡ reached binary32 n (cell n t.old) }
    ensures after { t.new ≡ grid n n (decomposed binary32 n (cell n t.old)) t.old }
{
    if n == 3 {
        return three_pivots::decompose_three(t);
    }
    let i = columns::fill_columns(n, t);
    if i < n {
        return i;
    }
    upper::clear_upper(n, t);
    i
}
