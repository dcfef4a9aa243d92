// The inverse of three by three from its lower factor, in straight lines, for the crate above, which has
// tested size and buffers; not for users. Each sum has the start and the order of its definition.
#![tactic(auto)]

ghost use Rattle.std.specs.Prelude.{◌≡◌, ◌≤◌, length};
ghost use Rattle.std.specs.Float.{binary32};
ghost use Rattle.grids.specs.Grid.{grid, cell};
ghost use Rattle.factors.specs.Inverse.{inverse};

// inv, three by three, becomes the inverse of the matrix whose lower factor is l.
pub fn invert_three(l: &[f32], inv: &mut [f32])
    requires { (9 ≤ length l.now) × (9 ≤ length inv.old) }
    ensures { inv.new ≡ grid 3 3 (inverse binary32 3 (cell 3 l.now) (cell 3 inv.old)) inv.old }
{
    let d0 = data_type::recip(l[0]);
    let l10 = l[3];
    let d1 = data_type::recip(l[4]);
    let l20 = l[6];
    let l21 = l[7];
    let d2 = data_type::recip(l[8]);
    let a00 = 1.0 * d0;
    let a01 = (0.0 + -l10 * a00) * d1;
    let a11 = 1.0 * d1;
    let a02 = (0.0 + (-l20 * a00 + -l21 * a01)) * d2;
    let a12 = (0.0 + -l21 * a11) * d2;
    let a22 = 1.0 * d2;
    let i02 = a02 * d2;
    let i12 = a12 * d2;
    let i22 = a22 * d2;
    let i01 = (a01 + -l21 * i02) * d1;
    let i11 = (a11 + -l21 * i12) * d1;
    let i00 = (a00 + (-l10 * i01 + -l20 * i02)) * d0;
    side_by_side::put_four(inv, 0, i00, i01, i02, i01);
    side_by_side::put_four(inv, 4, i11, i12, i02, i12);
    inv[8] = i22;
}
