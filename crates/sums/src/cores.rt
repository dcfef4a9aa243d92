// The work of the sums and differences, for the crates above, which have tested sizes and buffers;
// not for users.
ghost use Rattle.std.specs.Prelude.{◌≡◌, ◌≤◌, length, get_or, Float};
ghost use Rattle.std.specs.Float.{binary32, nan};
ghost use Rattle.std.specs.Float.Ieee.{add, sub};
ghost use Rattle.grids.specs.Grid.{run};

// a − b in the first n cells of c.
#[tactic(auto, using(grids::proofs::Grids::run_none, grids::proofs::Grids::run_more))]
pub fn sub_cells(n: usize, a: &[f32], b: &[f32], c: &mut [f32])
    requires { (n ≤ length a.now) × (n ≤ length b.now) × (n ≤ length c.old) }
    ensures { c.new ≡ run 0 n (λ i. sub binary32 (get_or a.now i nan) (get_or b.now i nan)) c.old }
{
    for k in 0..n {
        c[k] = a[k] - b[k];
    }
}

// What op makes of each a and b of the first n cells, in a.
#[tactic(auto, using(grids::proofs::Grids::run_none))]
fn combine<F: Fn(f32, f32) -> f32>(n: usize, a: &mut [f32], b: &[f32], op: F)
    requires lent { (n ≤ length a.old) × (n ≤ length b.now) }
    requires callable { F.IsAlwaysCallable op }
    ensures { (g : Float → Float → Float) → ((x y r : Float) → F.post op x y r → r ≡ g x y) → a.new ≡ run 0 n (λ i. g (get_or a.old i nan) (get_or b.now i nan)) a.old }
{
    for i in 0..n {
        a[i] = op(a[i], b[i]);
    }
}

// a − b in the first n cells of a.
pub fn sub_cells_a(n: usize, a: &mut [f32], b: &[f32])
    requires { (n ≤ length a.old) × (n ≤ length b.now) }
    ensures { a.new ≡ run 0 n (λ i. sub binary32 (get_or a.old i nan) (get_or b.now i nan)) a.old }
{
    combine(n, a, b, |x, y| x - y);
}

// a − b in the first n cells of b.
pub fn sub_cells_b(n: usize, a: &[f32], b: &mut [f32])
    requires { (n ≤ length a.now) × (n ≤ length b.old) }
    ensures { b.new ≡ run 0 n (λ i. sub binary32 (get_or a.now i nan) (get_or b.old i nan)) b.old }
{
    combine(n, b, a, |y, x| x - y);
}

// a + b in the first n cells of a.
pub fn add_cells_a(n: usize, a: &mut [f32], b: &[f32])
    requires { (n ≤ length a.old) × (n ≤ length b.now) }
    ensures { a.new ≡ run 0 n (λ i. add binary32 (get_or a.old i nan) (get_or b.now i nan)) a.old }
{
    combine(n, a, b, |x, y| x + y);
}
