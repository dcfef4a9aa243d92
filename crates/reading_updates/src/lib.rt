// The work of the update within a correction by a reading, for the crate above, which has tested sizes and
// buffers; not for users: three observations have a gain of their own.
#![tactic(auto)]

ghost use Rattle.std.specs.Prelude.{[]};
ghost use Rattle.std.specs.Float.{binary32};
ghost use Rattle.filters.specs.Lent.{buffers, Held};
ghost use Rattle.filters.specs.Corrected.{Renewed};

use answers::Answer;

// The update from the y that is lent: done, the pivot that is refused, or 9 where the new x or P is not
// all finite. Compiled into its caller, and neither update into it: so the stack of the one never stands
// below the other's.
#[inline(always)]
pub fn update_cells(
    n: usize,
    m: usize,
    x: &mut [f32],
    p: &mut [f32],
    h: &[f32],
    r: &[f32],
    y: &[f32],
    s: &mut [f32],
    k: &mut [f32],
    temp_s_inv: &mut [f32],
    temp_hp: &mut [f32],
    temp_pht: &mut [f32],
    temp_khp: &mut [f32],
) -> Answer
    requires { Held n m (buffers x.old p.old h.now [] r.now y.now s.old k.old temp_s_inv.old temp_hp.old temp_pht.old temp_khp.old) }
    ensures { Renewed binary32 n m (Ok tt) result
        (buffers x.old p.old h.now [] r.now y.now s.old k.old temp_s_inv.old temp_hp.old temp_pht.old temp_khp.old)
        (buffers x.new p.new h.now [] r.now y.now s.new k.new temp_s_inv.new temp_hp.new temp_pht.new temp_khp.new) }
{
    if m == 3 {
        return three_updates::update_three(
            n, x, p, &*h, &*r, &*y, s, k, temp_s_inv, temp_hp, temp_pht, temp_khp,
        );
    }
    corrections::update_cells(
        n, m, x, p, &*h, &*r, &*y, s, k, temp_s_inv, temp_hp, temp_pht, temp_khp,
    )
}
