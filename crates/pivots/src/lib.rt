// The pivot step: one number, taken or refused.
#![tactic(auto)]

ghost use Rattle.std.specs.Prelude.{◌≡◌};
ghost use Rattle.std.specs.Float.{binary32};
ghost use Rattle.factors.specs.Pivots.{pivot_taken};
ghost use Rattle.pivots.specs.Pivots.{pivot_of};

// A pivot: its root and the root's reciprocal, or the pivot that is refused.
#[derive(Clone, Copy)]
pub enum Pivot {
    Accepted(f32, f32),
    Refused(f32),
}

// Whether a pivot is taken: it is above zero and finite, at most the largest number that there is. So
// no NaN is, and +∞ neither.
pub fn taken(sum: f32) -> bool
    ensures { result ≡ pivot_taken sum }
{
    sum > 0.0 && sum <= 3.4028235e38
}

// The root of the computed sum and the root's reciprocal, where the sum is taken; else the sum, refused.
pub fn pivot_of(sum: f32) -> Pivot
    ensures { result ≡ pivot_of binary32 sum }
{
    if taken(sum) {
        let r = data_type::square_root(sum);
        Pivot::Accepted(r, data_type::recip(r))
    } else {
        Pivot::Refused(sum)
    }
}
