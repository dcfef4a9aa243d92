// a·b, for the crates above, which have tested sizes and buffers; not for users. Every sum has the start
// and the order of its definition; those of a row run side by side, in chunks of four columns, so that
// none waits for another.
#![tactic(auto)]

ghost use Rattle.std.specs.Prelude.{◌≡◌, ◌*◌, ◌≤◌, length};
ghost use Rattle.std.specs.Float.{binary32};
ghost use Rattle.grids.specs.Grid.{grid};
ghost use Rattle.entries.specs.Entries.{product};

mod wide;

pub use wide::{four_columns, wide_cells};

// The matrix, into c: a of rows by inner and b of inner by cols.
pub fn mult_cells(rows: usize, inner: usize, cols: usize, a: &[f32], b: &[f32], c: &mut [f32])
    requires { (rows * inner ≤ length a.now) × (inner * cols ≤ length b.now) × (rows * cols ≤ length c.old) × (1 ≤ cols) × (cols ≤ 16) × (inner ≤ 16) }
    ensures { c.new ≡ grid rows cols (product binary32 inner cols a.now b.now) c.old }
{
    if 4 <= cols {
        wide::wide_cells(rows, inner, cols, &*a, &*b, c);
    } else {
        thin_products::thin_cells(rows, inner, cols, &*a, &*b, cols, 1, c);
    }
}
