// The correction of one state by one observation, in straight lines, for the crate above, which has
// tested sizes and buffers; not for users. Every operand is read first; x and P are stored last, where
// the pivot is taken and both are finite. Each sum has the order of its definition, and what is stored
// has its start.
#![tactic(auto)]

ghost use Rattle.std.specs.Prelude.{◌≡◌, [], ◌≤◌, length};
ghost use Rattle.std.specs.Float.{binary32};
ghost use Rattle.grids.specs.Grid.{cell, run};
ghost use Rattle.entries.specs.Entries.{numbers};
ghost use Rattle.filters.specs.Correction.{innovation_of};
ghost use Rattle.filters.specs.Lent.{buffers, Held};
ghost use Rattle.filters.specs.Corrected.{Renewed};

use answers::{Answer, Refusal};

// One state, one observation: done, the pivot is refused, or 9 where the new x or P is not finite.
pub fn correct_one(
    x: &mut [f32],
    p: &mut [f32],
    h: &[f32],
    z: &[f32],
    r: &[f32],
    y: &mut [f32],
    s: &mut [f32],
    k: &mut [f32],
    temp_s_inv: &mut [f32],
    temp_hp: &mut [f32],
    temp_pht: &mut [f32],
    temp_khp: &mut [f32],
) -> Answer
    requires { Held 1 1 (buffers x.old p.old h.now [] r.now y.old s.old k.old temp_s_inv.old temp_hp.old temp_pht.old temp_khp.old) × (1 ≤ length z.now) }
    ensures y { y.new ≡ run 0 1 (innovation_of binary32 1 (cell 1 h.now) (numbers x.old) (numbers z.now)) y.old }
    ensures renewed { Renewed binary32 1 1 (Ok tt) result
        (buffers x.old p.old h.now [] r.now y.new s.old k.old temp_s_inv.old temp_hp.old temp_pht.old temp_khp.old)
        (buffers x.new p.new h.now [] r.now y.new s.new k.new temp_s_inv.new temp_hp.new temp_pht.new temp_khp.new) }
{
    let x0 = x[0];
    let p00 = p[0];
    let h00 = h[0];
    let r00 = r[0];
    let y0 = z[0] - h00 * x0;
    let u00 = h00 * p00;
    let v00 = p00 * h00;
    let s00 = late_zeros::one_more(u00, h00, r00);
    y[0] = y0;
    temp_hp[0] = 0.0 + u00;
    if !pivots::taken(s00) {
        s[0] = s00 * 0.0;
        return Err(Refusal::Pivot(0));
    }
    let l00 = data_type::square_root(s00);
    let d0 = data_type::recip(l00);
    let i00 = 1.0 * d0 * d0;
    let k00 = late_zeros::once(v00, i00);
    let t00 = late_zeros::twice(v00, i00, u00);
    s[0] = l00;
    temp_s_inv[0] = i00;
    temp_pht[0] = 0.0 + v00;
    k[0] = k00;
    temp_khp[0] = t00;
    let w0 = x0 + k00 * y0;
    let n00 = p00 - t00;
    if finite::two(w0, n00) {
        x[0] = w0;
        p[0] = n00;
        return Ok(());
    }
    Err(Refusal::NotFinite)
}
