// The lower factor and the inverse of three by three, as numbers and at once, for the crates above, which
// have tested sizes and buffers; not for users. Each difference and each sum has the start and the order of
// its definition; each root's reciprocal is formed once, for both.
#![tactic(auto)]

ghost use Rattle.std.specs.Prelude.{◌≡◌, ◌≤◌, length};
ghost use Rattle.std.specs.Float.{binary32};
ghost use Rattle.grids.specs.Grid.{grid};
ghost use Rattle.three_solved.specs.Solved.{factor_in, inverse_in, solved_of};

// The factor, and the inverse from it, which is symmetric.
#[derive(Clone, Copy)]
pub struct Solved {
    pub l00: f32,
    pub l10: f32,
    pub l11: f32,
    pub l20: f32,
    pub l21: f32,
    pub l22: f32,
    pub i00: f32,
    pub i01: f32,
    pub i02: f32,
    pub i11: f32,
    pub i12: f32,
    pub i22: f32,
}

// The factor and the inverse of the matrix whose entries on and above the diagonal are given, where every
// pivot is taken.
pub fn solve_three(s00: f32, s01: f32, s02: f32, s11: f32, s12: f32, s22: f32) -> Option<Solved>
    ensures { result ≡ solved_of binary32 s00 s01 s02 s11 s12 s22 }
{
    if !pivots::taken(s00) {
        return None;
    }
    let l00 = data_type::square_root(s00);
    let d0 = data_type::recip(l00);
    let l10 = s01 * d0;
    let l20 = s02 * d0;
    let p1 = s11 - l10 * l10;
    if !pivots::taken(p1) {
        return None;
    }
    let l11 = data_type::square_root(p1);
    let d1 = data_type::recip(l11);
    let l21 = (s12 - l10 * l20) * d1;
    let p2 = s22 - l20 * l20 - l21 * l21;
    if !pivots::taken(p2) {
        return None;
    }
    let l22 = data_type::square_root(p2);
    let d2 = data_type::recip(l22);
    let a00 = 1.0 * d0;
    let a01 = (0.0 + -l10 * a00) * d1;
    let a11 = 1.0 * d1;
    let a02 = (0.0 + (-l20 * a00 + -l21 * a01)) * d2;
    let a12 = (0.0 + -l21 * a11) * d2;
    let a22 = 1.0 * d2;
    let i02 = a02 * d2;
    let i12 = a12 * d2;
    let i22 = a22 * d2;
    let i01 = (a01 + -l21 * i02) * d1;
    let i11 = (a11 + -l21 * i12) * d1;
    let i00 = (a00 + (-l10 * i01 + -l20 * i02)) * d0;
    Some(Solved {
        l00,
        l10,
        l11,
        l20,
        l21,
        l22,
        i00,
        i01,
        i02,
        i11,
        i12,
        i22,
    })
}

// The factor, into s, three by three.
pub fn put_factor(s: &mut [f32], v: Solved)
    requires { 9 ≤ length s.old }
    ensures { s.new ≡ grid 3 3 (factor_in v) s.old }
{
    side_by_side::put_four(s, 0, v.l00, 0.0, 0.0, v.l10);
    side_by_side::put_four(s, 4, v.l11, 0.0, v.l20, v.l21);
    s[8] = v.l22;
}

// The inverse, into inv, three by three.
pub fn put_inverse(inv: &mut [f32], v: Solved)
    requires { 9 ≤ length inv.old }
    ensures { inv.new ≡ grid 3 3 (inverse_in v) inv.old }
{
    side_by_side::put_four(inv, 0, v.i00, v.i01, v.i02, v.i01);
    side_by_side::put_four(inv, 4, v.i11, v.i12, v.i02, v.i12);
    inv[8] = v.i22;
}
