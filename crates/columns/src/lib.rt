// The columns of a lower factor, from the left, until a pivot is refused; for the crates above, which
// have tested size and buffer; not for users.
#![tactic(auto)]

ghost use Rattle.std.specs.Prelude.{◌≡◌, ◌+◌, ◌*◌, ◌<◌, ◌≤◌, length, get_or};
ghost use Rattle.std.specs.Float.{binary32, nan};
ghost use Rattle.grids.specs.Grid.{grid, cell};
ghost use Rattle.pivots.specs.Pivots.{pivot_of};
ghost use Rattle.factors.specs.Decomposition.{less_dot, remains, below, reached};
ghost use Rattle.columns.specs.Steps.{stored};
ghost use Rattle.factors.specs.Steps.{swept};

use pivots::Pivot;

// The start less a[0]·b[0], a[1]·b[1], .., n of them, from the left.
fn less_dot(start: f32, a: &[f32], b: &[f32], n: usize) -> f32
    requires { (n ≤ length a.now) × (n ≤ length b.now) }
    ensures { result ≡ less_dot binary32 start (λ k. get_or a.now k nan) (λ k. get_or b.now k nan) n }
{
    let mut sum = start;
    for k in 0..n {
        sum = sum - a[k] * b[k];
    }
    sum
}

// t(i, j) less the products of the first i cells of rows i and j: the row parts start at i·n and j·n.
fn rest_at(n: usize, t: &[f32], i: usize, j: usize) -> f32
    requires { (i < n) × (j < n) × (i * n + n ≤ length t.now) × (j * n + n ≤ length t.now) }
    ensures { result ≡ remains binary32 (cell n t.now) i j }
{
    let p = i * n;
    let q = j * n;
    less_dot(t[p + j], &t[p..], &t[q..], i)
}

// Column i below the diagonal, d being the reciprocal of its root.
fn fill_below(n: usize, i: usize, d: f32, t: &mut [f32])
    requires { (i < n) × (n * n ≤ length t.old) }
    ensures { t.new ≡ grid n n (below binary32 (cell n t.old) i d) t.old }
{
    for j in i + 1..n {
        let sum = rest_at(n, t, i, j);
        t[j * n + i] = sum * d;
    }
}

// Column i, with the d of the column before: its pivot comes back.
fn fill_column(n: usize, i: usize, d: f32, t: &mut [f32]) -> Pivot
    requires { (i < n) × (i * n + n ≤ length t.old) × (n * n ≤ length t.old) }
    ensures pivot { result ≡ pivot_of binary32 (remains binary32 (cell n t.old) i i) }
    ensures after { t.new ≡ grid n n (stored binary32 (cell n t.old) i d result) t.old }
{
    let sum = rest_at(n, t, i, i);
    match pivots::pivot_of(sum) {
        Pivot::Accepted(r, q) => {
            t[i * n + i] = r;
            fill_below(n, i, q, t);
            Pivot::Accepted(r, q)
        }
        Pivot::Refused(s) => {
            t[i * n + i] = s * d;
            Pivot::Refused(s)
        }
    }
}

// Column by column until a pivot is refused, whose index comes back; n where every one is taken.
pub fn fill_columns(n: usize, t: &mut [f32]) -> usize
    requires { n * n ≤ length t.old }
    ensures index { result ≡ reached binary32 n (cell n t.old) }
    ensures after { t.new ≡ grid n n (swept binary32 n (cell n t.old)) t.old }
{
    let mut d: f32 = 0.0;
    for i in 0..n {
        let Pivot::Accepted(_, q) = fill_column(n, i, d, t) else {
            return i;
        };
        d = q;
    }
    n
}
