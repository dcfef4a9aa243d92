// a·bᵀ, each entry with the number of c at its place: added to it, or times a number and stored in its stead.
ghost use Rattle.std.specs.Prelude.{◌≡◌, ◌+◌, ◌*◌, ◌≤◌, length, Float};
ghost use Rattle.std.specs.Float.{binary32};
ghost use Rattle.std.specs.Float.Ieee.{add, mul};
ghost use Rattle.grids.specs.Grid.{cell, run, grid};
ghost use Rattle.entries.specs.Entries.{product_t};

// What op makes of each number of row r of c and of the entry, in its place: four at a time, then one by
// one.
#[tactic(auto, using(grids::proofs::Grids::row_in))]
fn each_of_row<F: Fn(f32, f32) -> f32>(
    inner: usize,
    cols: usize,
    a: &[f32],
    b: &[f32],
    r: usize,
    c: &mut [f32],
    op: &F,
)
    requires lent { (r * inner + inner ≤ length a.now) × (cols * inner ≤ length b.now) × (r * cols + cols ≤ length c.old) }
    requires callable { F.IsAlwaysCallable op.now }
    ensures { (g : Float → Float → Float) → ((x y v : Float) → F.post op.now x y v → v ≡ g x y) → c.new ≡ run (r * cols) cols (λ j. g (cell cols c.old r j) (product_t binary32 inner a.now b.now r j)) c.old }
{
    let at = r * cols;
    let fours = cols / 4;
    for q in 0..fours {
        let j = 4 * q;
        let t = row_totals::four_rows(inner, &*a, &*b, r, j);
        let p = at + j;
        c[p] = op(c[p], t.t0);
        c[p + 1] = op(c[p + 1], t.t1);
        c[p + 2] = op(c[p + 2], t.t2);
        c[p + 3] = op(c[p + 3], t.t3);
    }
    for j in 4 * fours..cols {
        c[at + j] = op(c[at + j], row_totals::row_total(inner, &*a, &*b, r, j));
    }
}

// What op makes of each number of c and of the entry, in its place.
#[tactic(auto, using(grids::proofs::Grids::row_in))]
fn each_entry<F: Fn(f32, f32) -> f32>(
    rows: usize,
    inner: usize,
    cols: usize,
    a: &[f32],
    b: &[f32],
    c: &mut [f32],
    op: F,
)
    requires lent { (rows * inner ≤ length a.now) × (cols * inner ≤ length b.now) × (rows * cols ≤ length c.old) }
    requires callable { F.IsAlwaysCallable op }
    ensures { (g : Float → Float → Float) → ((x y v : Float) → F.post op x y v → v ≡ g x y) → c.new ≡ grid rows cols (λ r j. g (cell cols c.old r j) (product_t binary32 inner a.now b.now r j)) c.old }
{
    for r in 0..rows {
        each_of_row(inner, cols, &*a, &*b, r, c, &op);
    }
}

// The matrix, added to c.
pub fn transb_add_cells(rows: usize, inner: usize, cols: usize, a: &[f32], b: &[f32], c: &mut [f32])
    requires { (rows * inner ≤ length a.now) × (cols * inner ≤ length b.now) × (rows * cols ≤ length c.old) }
    ensures { c.new ≡ grid rows cols (λ r j. add binary32 (cell cols c.old r j) (product_t binary32 inner a.now b.now r j)) c.old }
{
    each_entry(rows, inner, cols, a, b, c, |y, t| y + t);
}

// The matrix times scale, into c.
pub fn transb_scale_cells(
    rows: usize,
    inner: usize,
    cols: usize,
    a: &[f32],
    b: &[f32],
    scale: f32,
    c: &mut [f32],
)
    requires { (rows * inner ≤ length a.now) × (cols * inner ≤ length b.now) × (rows * cols ≤ length c.old) }
    ensures { c.new ≡ grid rows cols (λ r j. mul binary32 (product_t binary32 inner a.now b.now r j) scale) c.old }
{
    each_entry(rows, inner, cols, a, b, c, |_, t| t * scale);
}
