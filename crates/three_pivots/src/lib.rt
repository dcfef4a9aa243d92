// The lower factor of three by three, in straight lines, for the crate above, which has tested size and
// buffer; not for users. Each difference has the start and the order of its definition.
#![tactic(auto)]

ghost use Rattle.std.specs.Prelude.{◌≡◌, ◌≤◌, length};
ghost use Rattle.std.specs.Float.{binary32};
ghost use Rattle.grids.specs.Grid.{grid, cell};
ghost use Rattle.factors.specs.Decomposition.{reached, decomposed};

use pivots::Pivot;

// t, three by three, becomes its lower factor, and 3 comes back; or the index of the pivot that is
// refused.
pub fn decompose_three(t: &mut [f32]) -> usize
    requires { 9 ≤ length t.old }
    ensures index { result ≡ reached binary32 3 (cell 3 t.old) }
    ensures after { t.new ≡ grid 3 3 (decomposed binary32 3 (cell 3 t.old)) t.old }
{
    let s00 = t[0];
    let s01 = t[1];
    let s02 = t[2];
    let s11 = t[4];
    let s12 = t[5];
    let s22 = t[8];
    let Pivot::Accepted(l00, d0) = pivots::pivot_of(s00) else {
        t[0] = s00 * 0.0;
        return 0;
    };
    let l10 = s01 * d0;
    let l20 = s02 * d0;
    let p1 = s11 - l10 * l10;
    t[0] = l00;
    t[3] = l10;
    t[6] = l20;
    let Pivot::Accepted(l11, d1) = pivots::pivot_of(p1) else {
        t[4] = p1 * d0;
        return 1;
    };
    let l21 = (s12 - l10 * l20) * d1;
    let p2 = s22 - l20 * l20 - l21 * l21;
    t[4] = l11;
    t[7] = l21;
    let Pivot::Accepted(l22, _) = pivots::pivot_of(p2) else {
        t[8] = p2 * d1;
        return 2;
    };
    t[8] = l22;
    t[1] = 0.0;
    t[2] = 0.0;
    t[5] = 0.0;
    3
}
