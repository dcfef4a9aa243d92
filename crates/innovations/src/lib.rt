// The innovation of an observation, and the update from an innovation that is given, for any caller.
//
// Each function asks its gate, and has its work done below where the gate says done.
#![tactic(auto)]

ghost use Rattle.std.specs.Prelude.{[]};
ghost use Rattle.std.specs.Float.{binary32};
ghost use Rattle.filters.specs.Lent.{buffers};
ghost use Rattle.filters.specs.Corrected.{Innovated, Updated};

use answers::Answer;

// y = z − H·x.
pub fn innovation(n: usize, m: usize, x: &[f32], h: &[f32], z: &[f32], y: &mut [f32]) -> Answer
    ensures { Innovated binary32 n m x.now h.now z.now y.old result y.new }
{
    observation_gates::innovation(n, m, x.len(), h.len(), z.len(), y.len())?;
    updates::innovate_cells(n, m, &*x, &*h, &*z, y);
    Ok(())
}

// x and P after an observation whose innovation is y, with the gain in K and the lower factor of the
// residual's covariance in S. Or the first pivot of S that is not above zero, or not finite, NaN
// included, is named, or it is said that the new x or P is not all finite, as after a NaN in y; then x
// and P are as lent.
pub fn update_with_innovation(
    n: usize,
    m: usize,
    x: &mut [f32],
    p: &mut [f32],
    h: &[f32],
    r: &[f32],
    y: &[f32],
    s: &mut [f32],
    k: &mut [f32],
    temp_s_inv: &mut [f32],
    temp_hp: &mut [f32],
    temp_pht: &mut [f32],
    temp_khp: &mut [f32],
) -> Answer
    ensures { Updated binary32 n m
        (buffers x.old p.old h.now [] r.now y.now s.old k.old temp_s_inv.old temp_hp.old temp_pht.old temp_khp.old)
        result
        (buffers x.new p.new h.now [] r.now y.now s.new k.new temp_s_inv.new temp_hp.new temp_pht.new temp_khp.new) }
{
    observation_gates::update(
        n,
        m,
        x.len(),
        p.len(),
        h.len(),
        r.len(),
        y.len(),
        s.len(),
        k.len(),
        temp_s_inv.len(),
        temp_hp.len(),
        temp_pht.len(),
        temp_khp.len(),
    )?;
    corrections::update_cells(
        n, m, x, p, &*h, &*r, &*y, s, k, temp_s_inv, temp_hp, temp_pht, temp_khp,
    )
}
