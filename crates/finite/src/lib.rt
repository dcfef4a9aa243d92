// Whether numbers are finite, neither a NaN nor an infinity, for the crates above, which have tested
// sizes and buffers; not for users. Sums and differences are tested before anything is stored.
#![tactic(auto)]

ghost use Rattle.std.specs.Prelude.{◌≡◌, ◌&&◌, ◌≤◌, length, get_or, Float};
ghost use Rattle.std.specs.Float.{binary32, nan};
ghost use Rattle.std.specs.Float.Ieee.{add, sub};
ghost use Rattle.std.specs.Float.Ieee.Scale.{finite};
ghost use Rattle.numbers.specs.Finite.{all_finite};

// Whether v is. A finite number has the difference 0 from itself, and an infinity or a NaN has a NaN.
pub fn is_finite(v: f32) -> bool
    ensures { result ≡ finite v }
{
    0.0 <= v - v
}

// Whether it was so far and v is too.
fn also(so_far: bool, v: f32) -> bool
    ensures { result ≡ so_far && finite v }
{
    so_far && is_finite(v)
}

// Whether both are.
pub fn two(a: f32, b: f32) -> bool
    ensures { result ≡ finite a && finite b }
{
    is_finite(a) && is_finite(b)
}

// Whether all four are.
pub fn four(a: f32, b: f32, c: f32, d: f32) -> bool
    ensures { result ≡ ((finite a && finite b) && finite c) && finite d }
{
    also(also(two(a, b), c), d)
}

// Whether what op makes of each a and b of the first n cells is.
#[tactic(auto, using(numbers::proofs::Every::every_none, numbers::proofs::Every::every_more))]
fn pairs_finite<F: Fn(f32, f32) -> f32>(n: usize, a: &[f32], b: &[f32], op: F) -> bool
    requires lent { (n ≤ length a.now) × (n ≤ length b.now) }
    requires callable { F.IsAlwaysCallable op }
    ensures { (g : Float → Float → Float) → ((x y r : Float) → F.post op x y r → r ≡ g x y) → result ≡ all_finite n (λ i. g (get_or a.now i nan) (get_or b.now i nan)) }
{
    let mut all = true;
    for i in 0..n {
        all = also(all, op(a[i], b[i]));
    }
    all
}

// Whether each a + b of the first n cells is.
pub fn sums_finite(n: usize, a: &[f32], b: &[f32]) -> bool
    requires { (n ≤ length a.now) × (n ≤ length b.now) }
    ensures { result ≡ all_finite n (λ i. add binary32 (get_or a.now i nan) (get_or b.now i nan)) }
{
    pairs_finite(n, a, b, |x, y| x + y)
}

// Whether each a − b of the first n cells is.
pub fn differences_finite(n: usize, a: &[f32], b: &[f32]) -> bool
    requires { (n ≤ length a.now) × (n ≤ length b.now) }
    ensures { result ≡ all_finite n (λ i. sub binary32 (get_or a.now i nan) (get_or b.now i nan)) }
{
    pairs_finite(n, a, b, |x, y| x - y)
}
