// a·bᵀ by way of bᵀ, which is written into an array of its own first: then b's numbers are read side
// by side. For the crates above, which have tested sizes and buffers; not for users.
#![tactic(auto)]

ghost use Rattle.std.specs.Prelude.{◌≡◌, ◌+◌, ◌*◌, ◌≤◌, ◌<◌, length};
ghost use Rattle.std.specs.Float.{binary32};
ghost use Rattle.grids.specs.Grid.{cell, run, grid};
ghost use Rattle.entries.specs.Entries.{product_t};

// Column k of b, of cols by inner, as row k of t.
#[tactic(auto, using(grids::proofs::Grids::run_none, grids::proofs::Grids::run_more, grids::proofs::Grids::row_in))]
fn turn_column(inner: usize, cols: usize, b: &[f32], k: usize, t: &mut [f32])
    requires { (k < inner) × (cols * inner ≤ length b.now) × (k * cols + cols ≤ length t.old) }
    ensures { t.new ≡ run (k * cols) cols (λ j. cell inner b.now j k) t.old }
{
    let at = k * cols;
    for j in 0..cols {
        t[at + j] = b[j * inner + k];
    }
}

// bᵀ, into t.
#[tactic(auto, using(grids::proofs::Grids::grid_none, grids::proofs::Grids::grid_more, grids::proofs::Grids::row_in))]
pub fn turn(inner: usize, cols: usize, b: &[f32], t: &mut [f32])
    requires { (cols * inner ≤ length b.now) × (inner * cols ≤ length t.old) }
    ensures { t.new ≡ grid inner cols (λ k j. cell inner b.now j k) t.old }
{
    for k in 0..inner {
        turn_column(inner, cols, &*b, k, t);
    }
}

// The matrix, into c, for b of four to sixteen rows, with bᵀ in t.
fn by_way_of(
    rows: usize,
    inner: usize,
    cols: usize,
    a: &[f32],
    b: &[f32],
    t: &mut [f32],
    c: &mut [f32],
)
    requires { (4 ≤ cols) × (cols ≤ 16) × (inner * cols ≤ length t.old) × (rows * inner ≤ length a.now) × (cols * inner ≤ length b.now) × (rows * cols ≤ length c.old) }
    ensures t { t.new ≡ grid inner cols (λ k j. cell inner b.now j k) t.old }
    ensures c { c.new ≡ grid rows cols (product_t binary32 inner a.now b.now) c.old }
{
    turn(inner, cols, &*b, t);
    times_matrix::wide_cells(rows, inner, cols, &*a, t, c);
}

// The matrix, into c, for b of four to sixteen rows and at most 256 numbers. An array is cleared before it
// is used, so that few numbers have a small one.
pub fn turned_cells(rows: usize, inner: usize, cols: usize, a: &[f32], b: &[f32], c: &mut [f32])
    requires { (4 ≤ cols) × (cols ≤ 16) × (cols * inner ≤ 256) × (rows * inner ≤ length a.now) × (cols * inner ≤ length b.now) × (rows * cols ≤ length c.old) }
    ensures { c.new ≡ grid rows cols (product_t binary32 inner a.now b.now) c.old }
{
    if cols * inner <= 64 {
        let mut t: [f32; 64] = [0.0; 64];
        by_way_of(rows, inner, cols, &*a, &*b, &mut t, c);
    } else {
        let mut t: [f32; 256] = [0.0; 256];
        by_way_of(rows, inner, cols, &*a, &*b, &mut t, c);
    }
}
