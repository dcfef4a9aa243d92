// The correction of four states by two observations, in straight lines, for the crate above, which has
// tested sizes and buffers; not for users. Every operand is read first, and what follows works on values;
// x and P are stored last, where both pivots are taken and every number of both is finite. Each sum has
// the start and the order of its definition.
#![tactic(auto)]

ghost use Rattle.std.specs.Prelude.{◌≡◌, [], ◌≤◌, length};
ghost use Rattle.std.specs.Float.{binary32};
ghost use Rattle.grids.specs.Grid.{cell, run};
ghost use Rattle.entries.specs.Entries.{numbers};
ghost use Rattle.filters.specs.Correction.{innovation_of};
ghost use Rattle.filters.specs.Lent.{buffers, Held};
ghost use Rattle.filters.specs.Corrected.{Renewed};

use answers::{Answer, Refusal};

// Four states, two observations: done, the pivot that is refused, or 9 where the new x or P is not all
// finite.
pub fn correct_four(
    x: &mut [f32],
    p: &mut [f32],
    h: &[f32],
    z: &[f32],
    r: &[f32],
    y: &mut [f32],
    s: &mut [f32],
    k: &mut [f32],
    temp_s_inv: &mut [f32],
    temp_hp: &mut [f32],
    temp_pht: &mut [f32],
    temp_khp: &mut [f32],
) -> Answer
    requires { Held 4 2 (buffers x.old p.old h.now [] r.now y.old s.old k.old temp_s_inv.old temp_hp.old temp_pht.old temp_khp.old) × (2 ≤ length z.now) }
    ensures y { y.new ≡ run 0 2 (innovation_of binary32 4 (cell 4 h.now) (numbers x.old) (numbers z.now)) y.old }
    ensures renewed { Renewed binary32 4 2 (Ok tt) result
        (buffers x.old p.old h.now [] r.now y.new s.old k.old temp_s_inv.old temp_hp.old temp_pht.old temp_khp.old)
        (buffers x.new p.new h.now [] r.now y.new s.new k.new temp_s_inv.new temp_hp.new temp_pht.new temp_khp.new) }
{
    let b = four_stages::read_operands(&*x, &*p, h, z, r);
    let seen = four_stages::observe(b);
    side_by_side::put_two(y, 0, seen.y0, seen.y1);
    four_values::put_eight(temp_hp, seen.g);
    let root = four_stages::decompose(seen.s);
    side_by_side::put(s, 0, root.l);
    if root.taken < 2 {
        return Err(Refusal::Pivot(root.taken));
    }
    four_renewals::finish(b, seen, root, x, p, k, temp_s_inv, temp_pht, temp_khp)
}
