// a·bᵀ + q of one, two or three columns, for the crates above, which have tested sizes and buffers; not
// for users. A row's numbers of q are added while its totals are at hand, and then stored.
#![tactic(auto)]

ghost use Rattle.std.specs.Prelude.{◌≡◌, ◌+◌, ◌*◌, ◌≤◌, length, get_or};
ghost use Rattle.std.specs.Float.{binary32, nan};
ghost use Rattle.std.specs.Float.Ieee.{add};
ghost use Rattle.grids.specs.Grid.{cell, run, grid};
ghost use Rattle.entries.specs.Entries.{product_t};
ghost use Rattle.thin_products.specs.Thin.{number_at};

use thin_products::Three;

// The first cols of the three, each with q's number of the same place, in cells of c from at upward. As
// `thin_products::put_some`, where there is no q to read.
fn put_sums(c: &mut [f32], at: usize, cols: usize, t: Three, q: &[f32])
    requires { (1 ≤ cols) × (cols ≤ 3) × (at + cols ≤ length c.old) × (at + cols ≤ length q.now) }
    ensures { c.new ≡ run at cols (λ j. add binary32 (number_at t j) (get_or q.now (at + j) nan)) c.old }
{
    c[at] = t.t0 + q[at];
    if 2 <= cols {
        c[at + 1] = t.t1 + q[at + 1];
    }
    if 3 <= cols {
        c[at + 2] = t.t2 + q[at + 2];
    }
}

// a·bᵀ + q, into c, row after row.
#[tactic(auto, using(grids::proofs::Grids::row_in))]
fn plus_rows(rows: usize, inner: usize, cols: usize, a: &[f32], b: &[f32], q: &[f32], c: &mut [f32])
    requires { (1 ≤ cols) × (cols ≤ 3) × (inner ≤ 16) × (rows * inner ≤ length a.now) × (cols * inner ≤ length b.now) × (rows * cols ≤ length q.now) × (rows * cols ≤ length c.old) }
    ensures { c.new ≡ grid rows cols (λ i j. add binary32 (product_t binary32 inner a.now b.now i j) (cell cols q.now i j)) c.old }
{
    let one = if 2 <= cols { inner } else { 0 };
    let two = if 3 <= cols { inner + inner } else { one };
    for r in 0..rows {
        put_sums(
            c,
            r * cols,
            cols,
            thin_products::three_totals(inner, &*a, &*b, r, 1, one, two),
            &*q,
        );
    }
}

// a·bᵀ + q, into c: a of rows by inner, b of cols by inner, q and c of rows by cols. Of the sizes that the
// compiler knows it makes no loop: three columns, and six products a sum, which are common.
pub fn thin_plus(
    rows: usize,
    inner: usize,
    cols: usize,
    a: &[f32],
    b: &[f32],
    q: &[f32],
    c: &mut [f32],
)
    requires { (1 ≤ cols) × (cols ≤ 3) × (inner ≤ 16) × (rows * inner ≤ length a.now) × (cols * inner ≤ length b.now) × (rows * cols ≤ length q.now) × (rows * cols ≤ length c.old) }
    ensures { c.new ≡ grid rows cols (λ i j. add binary32 (product_t binary32 inner a.now b.now i j) (cell cols q.now i j)) c.old }
{
    if cols == 3 {
        if inner == 6 {
            plus_rows(rows, inner, cols, &*a, &*b, &*q, c);
        } else {
            plus_rows(rows, inner, cols, &*a, &*b, &*q, c);
        }
    } else {
        plus_rows(rows, inner, cols, &*a, &*b, &*q, c);
    }
}
