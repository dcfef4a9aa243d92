// a·x by way of aᵀ, whose numbers are read side by side, for thirteen to sixteen rows of a; for the crate
// above, which has tested sizes and buffers; not for users. Each sum starts with its first product.
#![tactic(auto)]

ghost use Rattle.std.specs.Prelude.{◌≡◌, ◌+◌, ◌*◌, ◌≤◌, length};
ghost use Rattle.std.specs.Float.{binary32};
ghost use Rattle.side_by_side.specs.Chunks.{Chunk};
ghost use Rattle.grids.specs.Grid.{cell, run};
ghost use Rattle.entries.specs.Entries.{times_x, numbers};

use side_by_side::Sixteen;

// Entries 0 to 11, and the four from last on; t is aᵀ, of inner by cols.
#[tactic(auto, using(grids::proofs::Grids::row_in))]
fn first_chunks(inner: usize, cols: usize, t: &[f32], x: &[f32], last: usize) -> Sixteen
    requires { (1 ≤ inner) × (12 ≤ cols) × (last + 4 ≤ cols) × (inner * cols ≤ length t.now) × (inner ≤ length x.now) }
    ensures { Chunk (times_x binary32 inner (λ j k. cell cols t.now k j) (numbers x.now)) 0 result.f0
        × Chunk (times_x binary32 inner (λ j k. cell cols t.now k j) (numbers x.now)) 4 result.f1
        × Chunk (times_x binary32 inner (λ j k. cell cols t.now k j) (numbers x.now)) 8 result.f2
        × Chunk (times_x binary32 inner (λ j k. cell cols t.now k j) (numbers x.now)) last result.f3 }
{
    let first = x[0];
    let mut t0 = side_by_side::times(first, &*t, 0, 1);
    let mut t1 = side_by_side::times(first, &*t, 4, 1);
    let mut t2 = side_by_side::times(first, &*t, 8, 1);
    let mut t3 = side_by_side::times(first, &*t, last, 1);
    for k in 1..inner {
        let v = x[k];
        let p = k * cols;
        t0 = side_by_side::more(t0, v, &*t, p);
        t1 = side_by_side::more(t1, v, &*t, p + 4);
        t2 = side_by_side::more(t2, v, &*t, p + 8);
        t3 = side_by_side::more(t3, v, &*t, p + last);
    }
    Sixteen {
        f0: t0,
        f1: t1,
        f2: t2,
        f3: t3,
    }
}

// The cols numbers, into c; t is aᵀ, of inner by cols.
pub fn rowvector_turned(inner: usize, cols: usize, t: &[f32], x: &[f32], c: &mut [f32])
    requires { (1 ≤ inner) × (12 ≤ cols) × (cols ≤ 16) × (inner * cols ≤ length t.now) × (inner ≤ length x.now) × (cols ≤ length c.old) }
    ensures { c.new ≡ run 0 cols (times_x binary32 inner (λ j k. cell cols t.now k j) (numbers x.now)) c.old }
{
    let last = cols - 4;
    let v = first_chunks(inner, cols, &*t, &*x, last);
    side_by_side::put(c, 0, v.f0);
    side_by_side::put(c, 4, v.f1);
    side_by_side::put(c, 8, v.f2);
    side_by_side::put(c, last, v.f3);
}
