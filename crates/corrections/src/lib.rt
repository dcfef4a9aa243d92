// The work of the update, for the crates above, which have tested sizes and buffers; not for users.
#![tactic(auto)]

ghost use Rattle.std.specs.Prelude.{[]};
ghost use Rattle.std.specs.Float.{binary32};
ghost use Rattle.filters.specs.Lent.{buffers, Held};
ghost use Rattle.filters.specs.Corrected.{Renewed};

use answers::{Answer, Refusal};

// The update from the y that is lent: done, the pivot that is refused, or 9 where the new x or P is not
// all finite. A call of its own, whose numbers take no stack in a correction of another kind.
#[inline(never)]
pub fn update_cells(
    n: usize,
    m: usize,
    x: &mut [f32],
    p: &mut [f32],
    h: &[f32],
    r: &[f32],
    y: &[f32],
    s: &mut [f32],
    k: &mut [f32],
    temp_s_inv: &mut [f32],
    temp_hp: &mut [f32],
    temp_pht: &mut [f32],
    temp_khp: &mut [f32],
) -> Answer
    requires { Held n m (buffers x.old p.old h.now [] r.now y.now s.old k.old temp_s_inv.old temp_hp.old temp_pht.old temp_khp.old) }
    ensures { Renewed binary32 n m (Ok tt) result
        (buffers x.old p.old h.now [] r.now y.now s.old k.old temp_s_inv.old temp_hp.old temp_pht.old temp_khp.old)
        (buffers x.new p.new h.now [] r.now y.now s.new k.new temp_s_inv.new temp_hp.new temp_pht.new temp_khp.new) }
{
    let i = updates::residual_cells(n, m, p, &*h, &*r, s, temp_hp);
    if i < m {
        return Err(Refusal::Pivot(i));
    }
    updates::gain_cells(n, m, p, &*h, s, k, temp_s_inv, temp_pht);
    renewals::renew_cells(n, m, x, p, &*y, k, temp_hp, temp_khp)
}
