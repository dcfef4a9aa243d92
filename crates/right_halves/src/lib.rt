// a·b of thirteen to sixteen rows and columns on the diagonal and above it, for the crate above, which has
// tested sizes and buffers; not for users. The left half of the lower rows is not formed. Two rows run side
// by side, each total from +0 on and in the order of its definition. Their totals have names, as those of
// `row_pairs` have, so that they stay in registers.
#![tactic(auto)]

ghost use Rattle.std.specs.Prelude.{◌≡◌, ℕ, ◌+◌, ◌-◌, ◌*◌, ◌≤◌, length, get_or};
ghost use Rattle.std.specs.Float.{binary32, nan};
ghost use Rattle.side_by_side.specs.Chunks.{Chunk};
ghost use Rattle.grids.specs.Grid.{cell, run};
ghost use Rattle.entries.specs.Entries.{product};
ghost use Rattle.factors.specs.Decomposition.{SameUpper};

use side_by_side::{Eight, Four};

// The totals of the right half of two rows.
#[derive(Clone, Copy)]
pub struct Halves {
    pub u: Eight,
    pub v: Eight,
}

// Of rows r and r + 1 the entries 8 to 11, and the four from last on.
fn two_halves(inner: usize, cols: usize, a: &[f32], b: &[f32], r: usize, last: usize) -> Halves
    requires { (12 ≤ cols) × (last + 4 ≤ cols) × (r * inner + inner + inner ≤ length a.now) × (inner * cols ≤ length b.now) }
    ensures first { Chunk (product binary32 inner cols a.now b.now r) 8 result.u.f0
        × Chunk (product binary32 inner cols a.now b.now r) last result.u.f1 }
    ensures second { Chunk (product binary32 inner cols a.now b.now (r + 1)) 8 result.v.f0
        × Chunk (product binary32 inner cols a.now b.now (r + 1)) last result.v.f1 }
{
    let row = r * inner;
    let next = row + inner;
    let none = Four {
        t0: 0.0,
        t1: 0.0,
        t2: 0.0,
        t3: 0.0,
    };
    let mut t0 = none;
    let mut t1 = none;
    let mut s0 = none;
    let mut s1 = none;
    for k in 0..inner {
        let x = a[row + k];
        let y = a[next + k];
        let p = k * cols;
        t0 = side_by_side::more(t0, x, &*b, p + 8);
        s0 = side_by_side::more(s0, y, &*b, p + 8);
        t1 = side_by_side::more(t1, x, &*b, p + last);
        s1 = side_by_side::more(s1, y, &*b, p + last);
    }
    Halves {
        u: Eight { f0: t0, f1: t1 },
        v: Eight { f0: s0, f1: s1 },
    }
}

// The right half of rows r and r + 1, into c.
fn pair_of_halves(inner: usize, cols: usize, a: &[f32], b: &[f32], r: usize, c: &mut [f32])
    requires { (12 ≤ cols) × (cols ≤ 16) × (r * inner + inner + inner ≤ length a.now) × (inner * cols ≤ length b.now) × (r * cols + cols + cols ≤ length c.old) }
    ensures { c.new ≡ run ((r + 1) * cols + 8) (cols - 8) (λ j. product binary32 inner cols a.now b.now (r + 1) (8 + j))
        (run (r * cols + 8) (cols - 8) (λ j. product binary32 inner cols a.now b.now r (8 + j)) c.old) }
{
    let at = r * cols;
    let next = at + cols;
    let last = cols - 4;
    let t = two_halves(inner, cols, &*a, &*b, r, last);
    side_by_side::put(c, at + 8, t.u.f0);
    side_by_side::put(c, at + last, t.u.f1);
    side_by_side::put(c, next + 8, t.v.f0);
    side_by_side::put(c, next + last, t.v.f1);
}

// The matrix on the diagonal and above it, into c: from the last two rows up as halves, and the first eight
// or nine rows whole. Other cells of its rows may change.
pub fn upper_cells(inner: usize, cols: usize, a: &[f32], b: &[f32], c: &mut [f32])
    requires { (12 ≤ cols) × (cols ≤ 16) × (cols * inner ≤ length a.now) × (inner * cols ≤ length b.now) × (cols * cols ≤ length c.old) }
    ensures upper { SameUpper cols (cell cols c.new) (product binary32 inner cols a.now b.now) }
    ensures size { length c.new ≡ length c.old }
    ensures past { (k : ℕ) → cols * cols ≤ k → get_or c.new k nan ≡ get_or c.old k nan }
{
    let pairs = (cols - 8) / 2;
    for pair in 0..pairs {
        pair_of_halves(inner, cols, &*a, &*b, cols - 2 * (pair + 1), c);
    }
    row_pairs::paired_cells(cols - 2 * pairs, inner, cols, &*a, &*b, c);
}
