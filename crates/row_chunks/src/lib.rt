// A row of a·b in chunks of four columns, one to four of them, for the crates above, which have tested
// sizes and buffers; not for users. All totals of a row run side by side, each from +0 on and in the
// order of its definition. The last chunk stands where the caller says: at the right edge. Each number of
// chunks has a function of its own, so that the totals stay in registers.
#![tactic(auto)]

ghost use Rattle.std.specs.Prelude.{◌≡◌, ◌+◌, ◌*◌, ◌≤◌, length};
ghost use Rattle.std.specs.Float.{binary32};
ghost use Rattle.side_by_side.specs.Chunks.{Chunk};
ghost use Rattle.entries.specs.Entries.{product};

use side_by_side::{Eight, Four, Sixteen, Twelve};

// Entries (r, 0) to (r, 3).
#[tactic(auto, using(grids::proofs::Grids::row_in))]
pub fn one_chunk(inner: usize, cols: usize, a: &[f32], b: &[f32], r: usize) -> Four
    requires { (4 ≤ cols) × (r * inner + inner ≤ length a.now) × (inner * cols ≤ length b.now) }
    ensures { Chunk (product binary32 inner cols a.now b.now r) 0 result }
{
    let row = r * inner;
    let mut t = Four {
        t0: 0.0,
        t1: 0.0,
        t2: 0.0,
        t3: 0.0,
    };
    for k in 0..inner {
        t = side_by_side::more(t, a[row + k], &*b, k * cols);
    }
    t
}

// Entries (r, 0) to (r, 3), and the four from (r, last) on.
#[tactic(auto, using(grids::proofs::Grids::row_in))]
pub fn two_chunks(inner: usize, cols: usize, a: &[f32], b: &[f32], r: usize, last: usize) -> Eight
    requires { (4 ≤ cols) × (last + 4 ≤ cols) × (r * inner + inner ≤ length a.now) × (inner * cols ≤ length b.now) }
    ensures { Chunk (product binary32 inner cols a.now b.now r) 0 result.f0
        × Chunk (product binary32 inner cols a.now b.now r) last result.f1 }
{
    let row = r * inner;
    let none = Four {
        t0: 0.0,
        t1: 0.0,
        t2: 0.0,
        t3: 0.0,
    };
    let mut t0 = none;
    let mut t1 = none;
    for k in 0..inner {
        let x = a[row + k];
        let p = k * cols;
        t0 = side_by_side::more(t0, x, &*b, p);
        t1 = side_by_side::more(t1, x, &*b, p + last);
    }
    Eight { f0: t0, f1: t1 }
}

// Entries (r, 0) to (r, 7), and the four from (r, last) on.
#[tactic(auto, using(grids::proofs::Grids::row_in))]
pub fn three_chunks(
    inner: usize,
    cols: usize,
    a: &[f32],
    b: &[f32],
    r: usize,
    last: usize,
) -> Twelve
    requires { (8 ≤ cols) × (last + 4 ≤ cols) × (r * inner + inner ≤ length a.now) × (inner * cols ≤ length b.now) }
    ensures { Chunk (product binary32 inner cols a.now b.now r) 0 result.f0
        × Chunk (product binary32 inner cols a.now b.now r) 4 result.f1
        × Chunk (product binary32 inner cols a.now b.now r) last result.f2 }
{
    let row = r * inner;
    let none = Four {
        t0: 0.0,
        t1: 0.0,
        t2: 0.0,
        t3: 0.0,
    };
    let mut t0 = none;
    let mut t1 = none;
    let mut t2 = none;
    for k in 0..inner {
        let x = a[row + k];
        let p = k * cols;
        t0 = side_by_side::more(t0, x, &*b, p);
        t1 = side_by_side::more(t1, x, &*b, p + 4);
        t2 = side_by_side::more(t2, x, &*b, p + last);
    }
    Twelve {
        f0: t0,
        f1: t1,
        f2: t2,
    }
}

// Entries (r, 0) to (r, 11), and the four from (r, last) on.
#[tactic(auto, using(grids::proofs::Grids::row_in))]
pub fn four_chunks(
    inner: usize,
    cols: usize,
    a: &[f32],
    b: &[f32],
    r: usize,
    last: usize,
) -> Sixteen
    requires { (12 ≤ cols) × (last + 4 ≤ cols) × (r * inner + inner ≤ length a.now) × (inner * cols ≤ length b.now) }
    ensures { Chunk (product binary32 inner cols a.now b.now r) 0 result.f0
        × Chunk (product binary32 inner cols a.now b.now r) 4 result.f1
        × Chunk (product binary32 inner cols a.now b.now r) 8 result.f2
        × Chunk (product binary32 inner cols a.now b.now r) last result.f3 }
{
    let row = r * inner;
    let none = Four {
        t0: 0.0,
        t1: 0.0,
        t2: 0.0,
        t3: 0.0,
    };
    let mut t0 = none;
    let mut t1 = none;
    let mut t2 = none;
    let mut t3 = none;
    for k in 0..inner {
        let x = a[row + k];
        let p = k * cols;
        t0 = side_by_side::more(t0, x, &*b, p);
        t1 = side_by_side::more(t1, x, &*b, p + 4);
        t2 = side_by_side::more(t2, x, &*b, p + 8);
        t3 = side_by_side::more(t3, x, &*b, p + last);
    }
    Sixteen {
        f0: t0,
        f1: t1,
        f2: t2,
        f3: t3,
    }
}
