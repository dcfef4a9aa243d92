// Products of one, two or three columns, for the crates above, which have tested sizes and buffers; not
// for users. A row's three totals run side by side; of fewer columns the last is summed again, and the
// first ones are stored.
// Number (k, j) of the right operand is b's at k·up + j·over: up and over are its columns and 1 where b
// holds it, and 1 and its rows where b holds its transpose.
#![tactic(auto)]

ghost use Rattle.std.specs.Prelude.{◌≡◌, ℕ, ◌+◌, ◌*◌, ◌≤◌, ◌<◌, length, get_or};
ghost use Rattle.std.specs.Float.{binary32, nan};
ghost use Rattle.numbers.specs.Sums.{plus0, sum_from, products};
ghost use Rattle.grids.specs.Grid.{cell, run, grid};
ghost use Rattle.entries.specs.Entries.{times};
ghost use Rattle.thin_products.specs.Thin.{number_at, strided};

#[derive(Clone, Copy)]
pub struct Three {
    pub t0: f32,
    pub t1: f32,
    pub t2: f32,
}

// The totals of row r of a with three columns of b, which lie at 0, one and two in its first row.
#[tactic(auto, using(numbers::proofs::Sums::sum_none, numbers::proofs::Sums::sum_next, entries::proofs::Totals::zero_bits))]
pub fn three_totals(
    inner: usize,
    a: &[f32],
    b: &[f32],
    r: usize,
    up: usize,
    one: usize,
    two: usize,
) -> Three
    requires { (r * inner + inner ≤ length a.now) × ((k : ℕ) → k < inner → (k * up < length b.now) × (k * up + one < length b.now) × (k * up + two < length b.now)) }
    ensures { (result.t0 ≡ sum_from binary32 plus0 (products binary32 (cell inner a.now r) (λ k. get_or b.now (k * up) nan)) inner)
        × (result.t1 ≡ sum_from binary32 plus0 (products binary32 (cell inner a.now r) (λ k. get_or b.now (k * up + one) nan)) inner)
        × (result.t2 ≡ sum_from binary32 plus0 (products binary32 (cell inner a.now r) (λ k. get_or b.now (k * up + two) nan)) inner) }
{
    let row = r * inner;
    let mut t0: f32 = 0.0;
    let mut t1: f32 = 0.0;
    let mut t2: f32 = 0.0;
    for k in 0..inner {
        let x = a[row + k];
        let p = k * up;
        t0 += x * b[p];
        t1 += x * b[p + one];
        t2 += x * b[p + two];
    }
    Three { t0, t1, t2 }
}

// The first cols of the three, in cells of c from at upward.
pub fn put_some(c: &mut [f32], at: usize, cols: usize, t: Three)
    requires { (1 ≤ cols) × (cols ≤ 3) × (at + cols ≤ length c.old) }
    ensures { c.new ≡ run at cols (number_at t) c.old }
{
    c[at] = t.t0;
    if 2 <= cols {
        c[at + 1] = t.t1;
    }
    if 3 <= cols {
        c[at + 2] = t.t2;
    }
}

// The matrix, into c, row after row.
#[tactic(auto, using(grids::proofs::Grids::row_in))]
fn thin_rows(
    rows: usize,
    inner: usize,
    cols: usize,
    a: &[f32],
    b: &[f32],
    up: usize,
    over: usize,
    c: &mut [f32],
)
    requires { (1 ≤ cols) × (cols ≤ 3) × (over ≤ 16) × (rows * inner ≤ length a.now) × ((k j : ℕ) → k < inner → j < cols → k * up + j * over < length b.now) × (rows * cols ≤ length c.old) }
    ensures { c.new ≡ grid rows cols (times binary32 inner (cell inner a.now) (strided up over b.now)) c.old }
{
    let one = if 2 <= cols { over } else { 0 };
    let two = if 3 <= cols { over + over } else { one };
    for r in 0..rows {
        put_some(
            c,
            r * cols,
            cols,
            three_totals(inner, &*a, &*b, r, up, one, two),
        );
    }
}

// The matrix of three columns, into c. Of what the compiler knows it makes no loop: b by rows or by columns,
// and three products a sum by rows, which are common.
fn three_columns(
    rows: usize,
    inner: usize,
    cols: usize,
    a: &[f32],
    b: &[f32],
    up: usize,
    over: usize,
    c: &mut [f32],
)
    requires { (1 ≤ cols) × (cols ≤ 3) × (over ≤ 16) × (rows * inner ≤ length a.now) × ((k j : ℕ) → k < inner → j < cols → k * up + j * over < length b.now) × (rows * cols ≤ length c.old) }
    ensures { c.new ≡ grid rows cols (times binary32 inner (cell inner a.now) (strided up over b.now)) c.old }
{
    if over == 1 {
        if inner == 3 {
            thin_rows(rows, inner, cols, &*a, &*b, up, over, c);
        } else {
            thin_rows(rows, inner, cols, &*a, &*b, up, over, c);
        }
    } else if up == 1 {
        thin_rows(rows, inner, cols, &*a, &*b, up, over, c);
    } else {
        thin_rows(rows, inner, cols, &*a, &*b, up, over, c);
    }
}

// The matrix, into c.
pub fn thin_cells(
    rows: usize,
    inner: usize,
    cols: usize,
    a: &[f32],
    b: &[f32],
    up: usize,
    over: usize,
    c: &mut [f32],
)
    requires { (1 ≤ cols) × (cols ≤ 3) × (over ≤ 16) × (rows * inner ≤ length a.now) × ((k j : ℕ) → k < inner → j < cols → k * up + j * over < length b.now) × (rows * cols ≤ length c.old) }
    ensures { c.new ≡ grid rows cols (times binary32 inner (cell inner a.now) (strided up over b.now)) c.old }
{
    if cols == 3 {
        three_columns(rows, inner, cols, &*a, &*b, up, over, c);
    } else {
        thin_rows(rows, inner, cols, &*a, &*b, up, over, c);
    }
}
