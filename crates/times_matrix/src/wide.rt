// a·b for b of four to sixteen columns. The last chunk of a row ends at its right edge, so that it may
// write numbers of the chunk before it once more: the same ones. A loop over rows is one call of its row's
// function, and stands once for each of them: one that took the function would be no shorter.
ghost use Rattle.std.specs.Prelude.{◌≡◌, ◌+◌, ◌*◌, ◌≤◌, ◌<◌, length};
ghost use Rattle.std.specs.Float.{binary32};
ghost use Rattle.grids.specs.Grid.{run, grid};
ghost use Rattle.entries.specs.Entries.{product};

// Row r of four columns, into c.
fn row_of_one(inner: usize, cols: usize, a: &[f32], b: &[f32], r: usize, c: &mut [f32])
    requires { (4 ≤ cols) × (cols ≤ 4) × (r * inner + inner ≤ length a.now) × (inner * cols ≤ length b.now) × (r * cols + cols ≤ length c.old) }
    ensures { c.new ≡ run (r * cols) cols (product binary32 inner cols a.now b.now r) c.old }
{
    side_by_side::put(c, r * cols, row_chunks::one_chunk(inner, cols, &*a, &*b, r));
}

// Row r of four to eight columns, into c.
fn row_of_two(inner: usize, cols: usize, a: &[f32], b: &[f32], r: usize, c: &mut [f32])
    requires { (4 ≤ cols) × (cols ≤ 8) × (r * inner + inner ≤ length a.now) × (inner * cols ≤ length b.now) × (r * cols + cols ≤ length c.old) }
    ensures { c.new ≡ run (r * cols) cols (product binary32 inner cols a.now b.now r) c.old }
{
    let at = r * cols;
    let last = cols - 4;
    let t = row_chunks::two_chunks(inner, cols, &*a, &*b, r, last);
    side_by_side::put(c, at, t.f0);
    side_by_side::put(c, at + last, t.f1);
}

// Row r of eight to twelve columns, into c.
fn row_of_three(inner: usize, cols: usize, a: &[f32], b: &[f32], r: usize, c: &mut [f32])
    requires { (8 ≤ cols) × (cols ≤ 12) × (r * inner + inner ≤ length a.now) × (inner * cols ≤ length b.now) × (r * cols + cols ≤ length c.old) }
    ensures { c.new ≡ run (r * cols) cols (product binary32 inner cols a.now b.now r) c.old }
{
    let at = r * cols;
    let last = cols - 4;
    let t = row_chunks::three_chunks(inner, cols, &*a, &*b, r, last);
    side_by_side::put(c, at, t.f0);
    side_by_side::put(c, at + 4, t.f1);
    side_by_side::put(c, at + last, t.f2);
}

// The matrix of four columns, into c, row after row.
#[tactic(auto, using(grids::proofs::Grids::grid_none, grids::proofs::Grids::grid_more, grids::proofs::Grids::row_in))]
pub fn four_columns(rows: usize, inner: usize, cols: usize, a: &[f32], b: &[f32], c: &mut [f32])
    requires { (4 ≤ cols) × (cols ≤ 4) × (rows * inner ≤ length a.now) × (inner * cols ≤ length b.now) × (rows * cols ≤ length c.old) }
    ensures { c.new ≡ grid rows cols (product binary32 inner cols a.now b.now) c.old }
{
    for r in 0..rows {
        row_of_one(inner, cols, &*a, &*b, r, c);
    }
}

// The matrix of four to eight columns, into c, row after row.
#[tactic(auto, using(grids::proofs::Grids::grid_none, grids::proofs::Grids::grid_more, grids::proofs::Grids::row_in))]
fn rows_of_two(rows: usize, inner: usize, cols: usize, a: &[f32], b: &[f32], c: &mut [f32])
    requires { (4 ≤ cols) × (cols ≤ 8) × (rows * inner ≤ length a.now) × (inner * cols ≤ length b.now) × (rows * cols ≤ length c.old) }
    ensures { c.new ≡ grid rows cols (product binary32 inner cols a.now b.now) c.old }
{
    for r in 0..rows {
        row_of_two(inner, cols, &*a, &*b, r, c);
    }
}

// The matrix of eight to twelve columns, into c, row after row.
#[tactic(auto, using(grids::proofs::Grids::grid_none, grids::proofs::Grids::grid_more, grids::proofs::Grids::row_in))]
fn rows_of_three(rows: usize, inner: usize, cols: usize, a: &[f32], b: &[f32], c: &mut [f32])
    requires { (8 ≤ cols) × (cols ≤ 12) × (rows * inner ≤ length a.now) × (inner * cols ≤ length b.now) × (rows * cols ≤ length c.old) }
    ensures { c.new ≡ grid rows cols (product binary32 inner cols a.now b.now) c.old }
{
    for r in 0..rows {
        row_of_three(inner, cols, &*a, &*b, r, c);
    }
}

// The matrix of four to eight columns, into c. Three and six products a sum are common: there the compiler
// knows how many turns its loop has, and writes them out.
fn two_chunks_wide(rows: usize, inner: usize, cols: usize, a: &[f32], b: &[f32], c: &mut [f32])
    requires { (4 ≤ cols) × (cols ≤ 8) × (rows * inner ≤ length a.now) × (inner * cols ≤ length b.now) × (rows * cols ≤ length c.old) }
    ensures { c.new ≡ grid rows cols (product binary32 inner cols a.now b.now) c.old }
{
    if inner == 3 {
        rows_of_two(rows, inner, cols, &*a, &*b, c);
    } else if inner == 6 {
        rows_of_two(rows, inner, cols, &*a, &*b, c);
    } else {
        rows_of_two(rows, inner, cols, &*a, &*b, c);
    }
}

// The matrix, into c.
pub fn wide_cells(rows: usize, inner: usize, cols: usize, a: &[f32], b: &[f32], c: &mut [f32])
    requires { (4 ≤ cols) × (cols ≤ 16) × (rows * inner ≤ length a.now) × (inner * cols ≤ length b.now) × (rows * cols ≤ length c.old) }
    ensures { c.new ≡ grid rows cols (product binary32 inner cols a.now b.now) c.old }
{
    if cols == 4 {
        four_columns(rows, inner, cols, &*a, &*b, c);
    } else if cols <= 8 {
        two_chunks_wide(rows, inner, cols, &*a, &*b, c);
    } else if cols <= 12 {
        rows_of_three(rows, inner, cols, &*a, &*b, c);
    } else {
        row_pairs::paired_cells(rows, inner, cols, &*a, &*b, c);
    }
}
