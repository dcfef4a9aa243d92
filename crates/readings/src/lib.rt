// The correction by a reading, over lent buffers of n states and m observations: the innovation and
// the update from it, behind one door. `observations` hands it on to users. One state and one observation
// are asked first, all their buffers at once.
#![tactic(auto)]

ghost use Rattle.std.specs.Float.{binary32};
ghost use Rattle.filters.specs.Lent.{buffers};
ghost use Rattle.filters.specs.Corrected.{Corrected};

use answers::Answer;

// x and P after the observation z, with its innovation in y, the gain in K and the lower factor of
// the residual's covariance in S. Or the first pivot of S that is not above zero, or not finite, NaN
// included, is named, or it is said that the new x or P is not all finite, as after a NaN in z; then x
// and P are as lent.
pub fn correct(
    n: usize,
    m: usize,
    x: &mut [f32],
    p: &mut [f32],
    h: &[f32],
    z: &[f32],
    r: &[f32],
    y: &mut [f32],
    s: &mut [f32],
    k: &mut [f32],
    temp_s_inv: &mut [f32],
    temp_hp: &mut [f32],
    temp_pht: &mut [f32],
    temp_khp: &mut [f32],
) -> Answer
    ensures { Corrected binary32 n m
        (buffers x.old p.old h.now z.now r.now y.old s.old k.old temp_s_inv.old temp_hp.old temp_pht.old temp_khp.old)
        result
        (buffers x.new p.new h.now z.now r.now y.new s.new k.new temp_s_inv.new temp_hp.new temp_pht.new temp_khp.new) }
{
    let lx = x.len();
    let lp = p.len();
    let lh = h.len();
    let lz = z.len();
    let lr = r.len();
    let ly = y.len();
    let ls = s.len();
    let lk = k.len();
    let li = temp_s_inv.len();
    let lhp = temp_hp.len();
    let lpht = temp_pht.len();
    let lkhp = temp_khp.len();
    if observation_gates::ones_fit(n, m, lx, lp, lh, lz, lr, ly, ls, lk, li, lhp, lpht, lkhp) {
        return one_by_one::correct_one(
            x, p, &*h, &*z, &*r, y, s, k, temp_s_inv, temp_hp, temp_pht, temp_khp,
        );
    }
    observation_gates::correction(n, m, lx, lp, lh, lz, lr, ly, ls, lk, li, lhp, lpht, lkhp)?;
    reading_cells::correct_cells(
        n, m, x, p, &*h, &*z, &*r, y, s, k, temp_s_inv, temp_hp, temp_pht, temp_khp,
    )
}
