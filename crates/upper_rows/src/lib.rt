// The lower factor by way of the upper triangle, for the crates above, which have tested size and buffer;
// not for users. Row i of the triangle becomes column i of the factor, so that what neighbours are less is
// read side by side, and four of them run together. A refused pivot leaves cells of which nothing is said:
// the caller forms them anew.
#![tactic(auto)]

ghost use Rattle.std.specs.Prelude.{◌≡◌, cond, ℕ, ◌+◌, ◌*◌, ◌≤◌, ◌<◌, length, get_or};
ghost use Rattle.std.specs.Float.{binary32, nan};
ghost use Rattle.std.specs.Float.Ieee.{sub, mul};
ghost use Rattle.side_by_side.specs.Chunks.{Chunk};
ghost use Rattle.grids.specs.Grid.{cell, grid};
ghost use Rattle.factors.specs.Pivots.{pivot_taken};
ghost use Rattle.factors.specs.Decomposition.{reached, decomposed};
ghost use Rattle.upper_rows.specs.Rows.{left, filled, laid, RowAnew};

use pivots::Pivot;
use side_by_side::Four;

// The four, each less x times its number of t: these lie side by side from p on.
fn less(v: Four, x: f32, t: &[f32], p: usize) -> Four
    requires { p + 3 < length t.now }
    ensures { (result.t0 ≡ sub binary32 v.t0 (mul binary32 x (get_or t.now p nan)))
        × (result.t1 ≡ sub binary32 v.t1 (mul binary32 x (get_or t.now (p + 1) nan)))
        × (result.t2 ≡ sub binary32 v.t2 (mul binary32 x (get_or t.now (p + 2) nan)))
        × (result.t3 ≡ sub binary32 v.t3 (mul binary32 x (get_or t.now (p + 3) nan))) }
{
    Four {
        t0: v.t0 - x * t[p],
        t1: v.t1 - x * t[p + 1],
        t2: v.t2 - x * t[p + 2],
        t3: v.t3 - x * t[p + 3],
    }
}

// What is left of t(i, c) to t(i, c + 3).
fn four_left(n: usize, i: usize, c: usize, t: &[f32]) -> Four
    requires { (i < n) × (c + 4 ≤ n) × (n * n ≤ length t.now) }
    ensures { Chunk (left binary32 (cell n t.now) i) c result }
{
    let mut v = side_by_side::read(&*t, i * n + c);
    for k in 0..i {
        v = less(v, t[k * n + i], &*t, k * n + c);
    }
    v
}

// What is left of t(i, c).
fn one_left(n: usize, i: usize, c: usize, t: &[f32]) -> f32
    requires { (i < n) × (c < n) × (n * n ≤ length t.now) }
    ensures { result ≡ left binary32 (cell n t.now) i c }
{
    let mut v = t[i * n + c];
    for k in 0..i {
        v = v - t[k * n + i] * t[k * n + c];
    }
    v
}

// Row i right of the diagonal: what is left there, times q. From the right edge on by fours, of which the
// last may reach past the diagonal, then one by one. How many fours there are hangs on both of their bounds,
// so no range counts them.
fn fill_right(n: usize, i: usize, q: f32, t: &mut [f32])
    requires { (i < n) × (n * n ≤ length t.old) }
    ensures { RowAnew n i (i + 1) (λ c. mul binary32 (left binary32 (cell n t.old) i c) q) t.old t.new }
{
    let mut c = n;
    while i + 1 < c && 4 <= c {
        c -= 4;
        let v = side_by_side::scaled(four_left(n, i, c, t), q);
        side_by_side::put(t, i * n + c, v);
    }
    for d in (i + 1..c).rev() {
        let v = one_left(n, i, d, t);
        t[i * n + d] = v * q;
    }
}

// Row i from the diagonal on: its root, and what is left right of it times the root's reciprocal. Whether
// the pivot is taken comes back; where it is not, nothing changes.
fn fill_row(n: usize, i: usize, t: &mut [f32]) -> bool
    requires { (i < n) × (n * n ≤ length t.old) }
    ensures taken { result ≡ pivot_taken (left binary32 (cell n t.old) i i) }
    ensures row { RowAnew n i i (λ c. cond result (filled binary32 (cell n t.old) i c) (cell n t.old i c)) t.old t.new }
{
    match pivots::pivot_of(one_left(n, i, i, t)) {
        Pivot::Accepted(r, q) => {
            fill_right(n, i, q, t);
            t[i * n + i] = r;
            true
        }
        Pivot::Refused(_) => false,
    }
}

// Row i right of the diagonal, as column i below it, and +0 in its place.
fn lay_down(n: usize, i: usize, t: &mut [f32])
    requires { (i < n) × (n * n ≤ length t.old) }
    ensures { t.new ≡ grid n n (laid (cell n t.old) i) t.old }
{
    for c in i + 1..n {
        t[c * n + i] = t[i * n + c];
        t[i * n + c] = 0.0;
    }
}

// t, of which the diagonal and what lies above it are read, becomes its lower factor, and n comes back; or
// the index of the pivot that is refused.
pub fn factor_rows(n: usize, t: &mut [f32]) -> usize
    requires { n * n ≤ length t.old }
    ensures index { result ≡ reached binary32 n (cell n t.old) }
    ensures after { n ≤ result → t.new ≡ grid n n (decomposed binary32 n (cell n t.old)) t.old }
    ensures size { length t.new ≡ length t.old }
    ensures past { (k : ℕ) → n * n ≤ k → get_or t.new k nan ≡ get_or t.old k nan }
{
    for i in 0..n {
        if !fill_row(n, i, t) {
            return i;
        }
    }
    for j in 0..n {
        lay_down(n, j, t);
    }
    n
}
