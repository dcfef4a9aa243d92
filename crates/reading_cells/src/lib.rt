// The work of a correction by a reading, for the crate above, which has tested sizes and buffers; not for
// users: (2, 1) and (4, 2) in straight lines, the others step by step.
#![tactic(auto)]

ghost use Rattle.std.specs.Prelude.{◌≡◌, [], ◌≤◌, length};
ghost use Rattle.std.specs.Float.{binary32};
ghost use Rattle.grids.specs.Grid.{cell, run};
ghost use Rattle.entries.specs.Entries.{numbers};
ghost use Rattle.filters.specs.Correction.{innovation_of};
ghost use Rattle.filters.specs.Lent.{buffers, Held};
ghost use Rattle.filters.specs.Corrected.{Renewed};

use answers::Answer;

// The innovation of z into y, and the update from it: done, the pivot that is refused, or 9 where the new
// x or P is not all finite.
pub fn correct_cells(
    n: usize,
    m: usize,
    x: &mut [f32],
    p: &mut [f32],
    h: &[f32],
    z: &[f32],
    r: &[f32],
    y: &mut [f32],
    s: &mut [f32],
    k: &mut [f32],
    temp_s_inv: &mut [f32],
    temp_hp: &mut [f32],
    temp_pht: &mut [f32],
    temp_khp: &mut [f32],
) -> Answer
    requires { Held n m (buffers x.old p.old h.now [] r.now y.old s.old k.old temp_s_inv.old temp_hp.old temp_pht.old temp_khp.old) × (m ≤ length z.now) }
    ensures y { y.new ≡ run 0 m (innovation_of binary32 n (cell n h.now) (numbers x.old) (numbers z.now)) y.old }
    ensures renewed { Renewed binary32 n m (Ok tt) result
        (buffers x.old p.old h.now [] r.now y.new s.old k.old temp_s_inv.old temp_hp.old temp_pht.old temp_khp.old)
        (buffers x.new p.new h.now [] r.now y.new s.new k.new temp_s_inv.new temp_hp.new temp_pht.new temp_khp.new) }
{
    if n == 2 && m == 1 {
        return two_by_one::correct_two(
            x, p, &*h, &*z, &*r, y, s, k, temp_s_inv, temp_hp, temp_pht, temp_khp,
        );
    }
    if n == 4 && m == 2 {
        return four_by_two::correct_four(
            x, p, &*h, &*z, &*r, y, s, k, temp_s_inv, temp_hp, temp_pht, temp_khp,
        );
    }
    updates::innovate_cells(n, m, x, &*h, &*z, y);
    reading_updates::update_cells(
        n, m, x, p, &*h, &*r, y, s, k, temp_s_inv, temp_hp, temp_pht, temp_khp,
    )
}
