// a·x, a of rows by inner and x of inner numbers, for the crates above, which have tested sizes and
// buffers; not for users. It is stored, or added to c. Each sum starts with its first product.
#![tactic(auto)]

ghost use Rattle.std.specs.Prelude.{◌≡◌, ◌+◌, ◌*◌, ◌≤◌, length, get_or, Float};
ghost use Rattle.std.specs.Float.{binary32, nan};
ghost use Rattle.std.specs.Float.Ieee.{add};
ghost use Rattle.grids.specs.Grid.{run};
ghost use Rattle.entries.specs.Entries.{row_product};

use side_by_side::Four;

// Entry r.
#[tactic(auto, using(numbers::proofs::Sums::first_only, numbers::proofs::Sums::first_next))]
fn total_from_first(inner: usize, a: &[f32], x: &[f32], r: usize) -> f32
    requires { (1 ≤ inner) × (r * inner + inner ≤ length a.now) × (inner ≤ length x.now) }
    ensures { result ≡ row_product binary32 inner a.now x.now r }
{
    let row = r * inner;
    let mut total = a[row] * x[0];
    for k in 1..inner {
        total += a[row + k] * x[k];
    }
    total
}

// Entries r to r + 3.
fn four_from_first(inner: usize, a: &[f32], x: &[f32], r: usize) -> Four
    requires { (1 ≤ inner) × (r * inner + 4 * inner ≤ length a.now) × (inner ≤ length x.now) }
    ensures { (result.t0 ≡ row_product binary32 inner a.now x.now r)
        × (result.t1 ≡ row_product binary32 inner a.now x.now (r + 1))
        × (result.t2 ≡ row_product binary32 inner a.now x.now (r + 2))
        × (result.t3 ≡ row_product binary32 inner a.now x.now (r + 3)) }
{
    let row = r * inner;
    let mut t = side_by_side::times(x[0], &*a, row, inner);
    for k in 1..inner {
        t = side_by_side::plus(t, side_by_side::times(x[k], &*a, row + k, inner));
    }
    t
}

// What op makes of each of the rows numbers of c and of the entry, in its place: four of a's rows at a
// time, then one by one.
#[tactic(auto, using(grids::proofs::Grids::row_in))]
fn each_row<F: Fn(f32, f32) -> f32>(
    rows: usize,
    inner: usize,
    a: &[f32],
    x: &[f32],
    c: &mut [f32],
    op: F,
)
    requires lent { (1 ≤ inner) × (rows * inner ≤ length a.now) × (inner ≤ length x.now) × (rows ≤ length c.old) }
    requires callable { F.IsAlwaysCallable op }
    ensures { (g : Float → Float → Float) → ((x y r : Float) → F.post op x y r → r ≡ g x y) → c.new ≡ run 0 rows (λ r. g (get_or c.old r nan) (row_product binary32 inner a.now x.now r)) c.old }
{
    let fours = rows / 4;
    for q in 0..fours {
        let r = 4 * q;
        let t = four_from_first(inner, &*a, &*x, r);
        c[r] = op(c[r], t.t0);
        c[r + 1] = op(c[r + 1], t.t1);
        c[r + 2] = op(c[r + 2], t.t2);
        c[r + 3] = op(c[r + 3], t.t3);
    }
    for r in 4 * fours..rows {
        c[r] = op(c[r], total_from_first(inner, &*a, &*x, r));
    }
}

// The same for three products a sum, which are common: no sum needs a loop.
#[tactic(auto, using(grids::proofs::Grids::run_none))]
fn by_three(rows: usize, a: &[f32], x: &[f32], c: &mut [f32])
    requires { (rows * 3 ≤ length a.now) × (3 ≤ length x.now) × (rows ≤ length c.old) }
    ensures { c.new ≡ run 0 rows (row_product binary32 3 a.now x.now) c.old }
{
    let x0 = x[0];
    let x1 = x[1];
    let x2 = x[2];
    for r in 0..rows {
        let p = r * 3;
        c[r] = a[p] * x0 + a[p + 1] * x1 + a[p + 2] * x2;
    }
}

// And for six.
#[tactic(auto, using(grids::proofs::Grids::run_none))]
fn by_six(rows: usize, a: &[f32], x: &[f32], c: &mut [f32])
    requires { (rows * 6 ≤ length a.now) × (6 ≤ length x.now) × (rows ≤ length c.old) }
    ensures { c.new ≡ run 0 rows (row_product binary32 6 a.now x.now) c.old }
{
    let x0 = x[0];
    let x1 = x[1];
    let x2 = x[2];
    let x3 = x[3];
    let x4 = x[4];
    let x5 = x[5];
    for r in 0..rows {
        let p = r * 6;
        c[r] = a[p] * x0
            + a[p + 1] * x1
            + a[p + 2] * x2
            + a[p + 3] * x3
            + a[p + 4] * x4
            + a[p + 5] * x5;
    }
}

// The rows numbers, into c.
pub fn rowvector_cells(rows: usize, inner: usize, a: &[f32], x: &[f32], c: &mut [f32])
    requires { (1 ≤ inner) × (rows * inner ≤ length a.now) × (inner ≤ length x.now) × (rows ≤ length c.old) }
    ensures { c.new ≡ run 0 rows (row_product binary32 inner a.now x.now) c.old }
{
    if inner == 3 {
        by_three(rows, &*a, &*x, c);
    } else if inner == 6 {
        by_six(rows, &*a, &*x, c);
    } else {
        each_row(rows, inner, &*a, &*x, c, |_, t| t);
    }
}

// The rows numbers, added to c.
pub fn rowvector_add_cells(rows: usize, inner: usize, a: &[f32], x: &[f32], c: &mut [f32])
    requires { (1 ≤ inner) × (rows * inner ≤ length a.now) × (inner ≤ length x.now) × (rows ≤ length c.old) }
    ensures { c.new ≡ run 0 rows (λ r. add binary32 (get_or c.old r nan) (row_product binary32 inner a.now x.now r)) c.old }
{
    each_row(rows, inner, a, x, c, |y, t| y + t);
}
