// Sums of products that start at +0, with the start added where nothing waits for it, for the crates
// above; not for users. The start changes nothing but a −0, so that the last start does the work of all.
#![tactic(auto)]

ghost use Rattle.std.specs.Prelude.{◌≡◌};
ghost use Rattle.std.specs.Float.{binary32};
ghost use Rattle.std.specs.Float.Ieee.{add, mul};
ghost use Rattle.numbers.specs.Sums.{plus0};

// 0 + (0 + u)·a + q.
pub fn one_more(u: f32, a: f32, q: f32) -> f32
    ensures { result ≡ add binary32 (add binary32 plus0 (mul binary32 (add binary32 plus0 u) a)) q }
{
    u * a + (0.0 + q)
}

// 0 + (0 + u)·a + (0 + v)·b + q.
pub fn two_more(u: f32, a: f32, v: f32, b: f32, q: f32) -> f32
    ensures { result ≡ add binary32 (add binary32 (add binary32 plus0 (mul binary32 (add binary32 plus0 u) a)) (mul binary32 (add binary32 plus0 v) b)) q }
{
    u * a + v * b + (0.0 + q)
}

// 0 + (0 + u)·a.
pub fn once(u: f32, a: f32) -> f32
    ensures { result ≡ add binary32 plus0 (mul binary32 (add binary32 plus0 u) a) }
{
    0.0 + u * a
}

// 0 + (0 + (0 + u)·a)·(0 + v).
pub fn twice(u: f32, a: f32, v: f32) -> f32
    ensures { result ≡ add binary32 plus0 (mul binary32 (add binary32 plus0 (mul binary32 (add binary32 plus0 u) a)) (add binary32 plus0 v)) }
{
    0.0 + u * a * v
}
