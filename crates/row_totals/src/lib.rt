// Entries of a·bᵀ, a and b with rows of inner numbers, for the crates above, which have tested sizes
// and buffers; not for users. Every sum has the start and the order of its definition; four run side
// by side.
#![tactic(auto)]

ghost use Rattle.std.specs.Prelude.{◌≡◌, ◌+◌, ◌*◌, ◌≤◌, length};
ghost use Rattle.std.specs.Float.{binary32};
ghost use Rattle.entries.specs.Entries.{product_t};

use side_by_side::Four;

// Entry (r, j).
#[tactic(auto, using(numbers::proofs::Sums::sum_none, numbers::proofs::Sums::sum_next, entries::proofs::Totals::zero_bits))]
pub fn row_total(inner: usize, a: &[f32], b: &[f32], r: usize, j: usize) -> f32
    requires { (r * inner + inner ≤ length a.now) × (j * inner + inner ≤ length b.now) }
    ensures { result ≡ product_t binary32 inner a.now b.now r j }
{
    let left = r * inner;
    let right = j * inner;
    let mut total: f32 = 0.0;
    for k in 0..inner {
        total += a[left + k] * b[right + k];
    }
    total
}

// Entries (r, j) to (r, j + 3).
pub fn four_rows(inner: usize, a: &[f32], b: &[f32], r: usize, j: usize) -> Four
    requires { (r * inner + inner ≤ length a.now) × (j * inner + 4 * inner ≤ length b.now) }
    ensures { (result.t0 ≡ product_t binary32 inner a.now b.now r j)
        × (result.t1 ≡ product_t binary32 inner a.now b.now r (j + 1))
        × (result.t2 ≡ product_t binary32 inner a.now b.now r (j + 2))
        × (result.t3 ≡ product_t binary32 inner a.now b.now r (j + 3)) }
{
    let left = r * inner;
    let right = j * inner;
    let mut t = Four {
        t0: 0.0,
        t1: 0.0,
        t2: 0.0,
        t3: 0.0,
    };
    for k in 0..inner {
        t = side_by_side::plus(t, side_by_side::times(a[left + k], &*b, right + k, inner));
    }
    t
}
