// a·b for b of thirteen to sixteen columns, two rows at a time, for the crate above, which has tested
// sizes and buffers; not for users. Eight chunks of four columns run side by side, each total from +0 on
// and in the order of its definition, and each number of b is read once for both rows.
#![tactic(auto)]

ghost use Rattle.std.specs.Prelude.{◌≡◌, ◌+◌, ◌*◌, ◌≤◌, length};
ghost use Rattle.std.specs.Float.{binary32};
ghost use Rattle.side_by_side.specs.Chunks.{Chunk};
ghost use Rattle.grids.specs.Grid.{run, grid};
ghost use Rattle.entries.specs.Entries.{product};

use side_by_side::{Four, Sixteen};

// The totals of two rows.
#[derive(Clone, Copy)]
pub struct Pair {
    pub u: Sixteen,
    pub v: Sixteen,
}

// Of rows r and r + 1 the entries 0 to 11, and the four from last on.
#[tactic(auto, using(grids::proofs::Grids::row_in))]
fn two_rows(inner: usize, cols: usize, a: &[f32], b: &[f32], r: usize, last: usize) -> Pair
    requires { (12 ≤ cols) × (last + 4 ≤ cols) × (r * inner + inner + inner ≤ length a.now) × (inner * cols ≤ length b.now) }
    ensures first { Chunk (product binary32 inner cols a.now b.now r) 0 result.u.f0
        × Chunk (product binary32 inner cols a.now b.now r) 4 result.u.f1
        × Chunk (product binary32 inner cols a.now b.now r) 8 result.u.f2
        × Chunk (product binary32 inner cols a.now b.now r) last result.u.f3 }
    ensures second { Chunk (product binary32 inner cols a.now b.now (r + 1)) 0 result.v.f0
        × Chunk (product binary32 inner cols a.now b.now (r + 1)) 4 result.v.f1
        × Chunk (product binary32 inner cols a.now b.now (r + 1)) 8 result.v.f2
        × Chunk (product binary32 inner cols a.now b.now (r + 1)) last result.v.f3 }
{
    let row = r * inner;
    let next = row + inner;
    let none = Four {
        t0: 0.0,
        t1: 0.0,
        t2: 0.0,
        t3: 0.0,
    };
    let mut t0 = none;
    let mut t1 = none;
    let mut t2 = none;
    let mut t3 = none;
    let mut s0 = none;
    let mut s1 = none;
    let mut s2 = none;
    let mut s3 = none;
    for k in 0..inner {
        let x = a[row + k];
        let y = a[next + k];
        let p = k * cols;
        t0 = side_by_side::more(t0, x, &*b, p);
        s0 = side_by_side::more(s0, y, &*b, p);
        t1 = side_by_side::more(t1, x, &*b, p + 4);
        s1 = side_by_side::more(s1, y, &*b, p + 4);
        t2 = side_by_side::more(t2, x, &*b, p + 8);
        s2 = side_by_side::more(s2, y, &*b, p + 8);
        t3 = side_by_side::more(t3, x, &*b, p + last);
        s3 = side_by_side::more(s3, y, &*b, p + last);
    }
    Pair {
        u: Sixteen {
            f0: t0,
            f1: t1,
            f2: t2,
            f3: t3,
        },
        v: Sixteen {
            f0: s0,
            f1: s1,
            f2: s2,
            f3: s3,
        },
    }
}

// Rows r and r + 1, into c.
fn pair_of_rows(inner: usize, cols: usize, a: &[f32], b: &[f32], r: usize, c: &mut [f32])
    requires { (12 ≤ cols) × (cols ≤ 16) × (r * inner + inner + inner ≤ length a.now) × (inner * cols ≤ length b.now) × (r * cols + cols + cols ≤ length c.old) }
    ensures { c.new ≡ run ((r + 1) * cols) cols (product binary32 inner cols a.now b.now (r + 1)) (run (r * cols) cols (product binary32 inner cols a.now b.now r) c.old) }
{
    let at = r * cols;
    let next = at + cols;
    let last = cols - 4;
    let t = two_rows(inner, cols, &*a, &*b, r, last);
    side_by_side::put(c, at, t.u.f0);
    side_by_side::put(c, at + 4, t.u.f1);
    side_by_side::put(c, at + 8, t.u.f2);
    side_by_side::put(c, at + last, t.u.f3);
    side_by_side::put(c, next, t.v.f0);
    side_by_side::put(c, next + 4, t.v.f1);
    side_by_side::put(c, next + 8, t.v.f2);
    side_by_side::put(c, next + last, t.v.f3);
}

// Row r, into c.
fn last_row(inner: usize, cols: usize, a: &[f32], b: &[f32], r: usize, c: &mut [f32])
    requires { (12 ≤ cols) × (cols ≤ 16) × (r * inner + inner ≤ length a.now) × (inner * cols ≤ length b.now) × (r * cols + cols ≤ length c.old) }
    ensures { c.new ≡ run (r * cols) cols (product binary32 inner cols a.now b.now r) c.old }
{
    let at = r * cols;
    let last = cols - 4;
    let t = row_chunks::four_chunks(inner, cols, &*a, &*b, r, last);
    side_by_side::put(c, at, t.f0);
    side_by_side::put(c, at + 4, t.f1);
    side_by_side::put(c, at + 8, t.f2);
    side_by_side::put(c, at + last, t.f3);
}

// The matrix, into c: two rows at a time, and a last one by itself.
#[tactic(auto, using(grids::proofs::Grids::row_in))]
pub fn paired_cells(rows: usize, inner: usize, cols: usize, a: &[f32], b: &[f32], c: &mut [f32])
    requires { (12 ≤ cols) × (cols ≤ 16) × (rows * inner ≤ length a.now) × (inner * cols ≤ length b.now) × (rows * cols ≤ length c.old) }
    ensures { c.new ≡ grid rows cols (product binary32 inner cols a.now b.now) c.old }
{
    for q in 0..rows / 2 {
        pair_of_rows(inner, cols, &*a, &*b, 2 * q, c);
    }
    if rows % 2 == 1 {
        last_row(inner, cols, &*a, &*b, rows - 1, c);
    }
}
