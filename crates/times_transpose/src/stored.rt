// a·bᵀ, stored in c.
ghost use Rattle.std.specs.Prelude.{◌≡◌, ◌*◌, ◌≤◌, length};
ghost use Rattle.std.specs.Float.{binary32};
ghost use Rattle.grids.specs.Grid.{grid};
ghost use Rattle.entries.specs.Entries.{product_t};

// The matrix, into c: by way of bᵀ, whose numbers are then read side by side.
pub fn transb_cells(rows: usize, inner: usize, cols: usize, a: &[f32], b: &[f32], c: &mut [f32])
    requires { (rows * inner ≤ length a.now) × (cols * inner ≤ length b.now) × (rows * cols ≤ length c.old) × (1 ≤ cols) × (cols ≤ 16) × (inner ≤ 16) }
    ensures { c.new ≡ grid rows cols (product_t binary32 inner a.now b.now) c.old }
{
    if 4 <= cols {
        turned::turned_cells(rows, inner, cols, &*a, &*b, c);
    } else {
        thin_products::thin_cells(rows, inner, cols, &*a, &*b, 1, inner, c);
    }
}
