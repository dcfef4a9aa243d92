// The steps of the update one after the other, with room lent for Hᵀ; for the crate above, which has tested
// sizes and buffers; not for users.
#![tactic(auto)]

ghost use Rattle.std.specs.Prelude.{[], ◌*◌, ◌≤◌, length};
ghost use Rattle.std.specs.Float.{binary32};
ghost use Rattle.entries.specs.Entries.{Transposed};
ghost use Rattle.filters.specs.Lent.{buffers, Held};
ghost use Rattle.filters.specs.Corrected.{Renewed};

use answers::{Answer, Refusal};

mod gain;

pub use gain::gain_turned;

// Hᵀ into t, for four observations or more.
fn turn_wide(n: usize, m: usize, h: &[f32], t: &mut [f32])
    requires { (m * n ≤ length h.now) × (n * m ≤ length t.old) }
    ensures { 4 ≤ m → Transposed n m t.new h.now }
{
    if m < 4 {
        return;
    }
    turned::turn(n, m, &*h, t);
}

// The update from the y that is lent, with room for Hᵀ in t: done, the pivot that is refused, or 9 where
// the new x or P is not all finite.
pub fn update_turned(
    n: usize,
    m: usize,
    x: &mut [f32],
    p: &mut [f32],
    h: &[f32],
    r: &[f32],
    y: &[f32],
    s: &mut [f32],
    k: &mut [f32],
    temp_s_inv: &mut [f32],
    temp_hp: &mut [f32],
    temp_pht: &mut [f32],
    temp_khp: &mut [f32],
    t: &mut [f32],
) -> Answer
    requires { (n * m ≤ length t.old) × Held n m (buffers x.old p.old h.now [] r.now y.now s.old k.old temp_s_inv.old temp_hp.old temp_pht.old temp_khp.old) }
    ensures { Renewed binary32 n m (Ok tt) result
        (buffers x.old p.old h.now [] r.now y.now s.old k.old temp_s_inv.old temp_hp.old temp_pht.old temp_khp.old)
        (buffers x.new p.new h.now [] r.now y.now s.new k.new temp_s_inv.new temp_hp.new temp_pht.new temp_khp.new) }
{
    turn_wide(n, m, &*h, t);
    let i = residuals::residual_cells(n, m, p, &*h, t, &*r, s, temp_hp);
    if i < m {
        return Err(Refusal::Pivot(i));
    }
    gain_turned(n, m, p, &*h, t, s, k, temp_s_inv, temp_pht);
    renewals::renew_cells(n, m, x, p, &*y, k, temp_hp, temp_khp)
}
