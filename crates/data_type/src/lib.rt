// Numbers: the reciprocal and the square root of an f32.
#![tactic(auto)]

ghost use Rattle.std.specs.Prelude.{◌≡◌};
ghost use Rattle.std.specs.Float.{binary32};
ghost use Rattle.numbers.specs.Reciprocal.{recip_of};

mod root;

pub use root::square_root;

// 1/v, rounded once.
pub fn recip(v: f32) -> f32
    ensures { result ≡ recip_of binary32 v }
{
    1.0 / v
}
