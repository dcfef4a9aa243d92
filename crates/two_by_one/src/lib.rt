// The correction of two states by one observation, in straight lines, for the crate above, which has
// tested sizes and buffers; not for users. Every operand is read first, and what follows works on values;
// x and P are stored last, where the pivot is taken and every number of both is finite. Each sum has the
// order of its definition, and what is stored has its start.
#![tactic(auto)]

ghost use Rattle.std.specs.Prelude.{◌≡◌, [], ◌≤◌, length};
ghost use Rattle.std.specs.Float.{binary32};
ghost use Rattle.grids.specs.Grid.{cell, run};
ghost use Rattle.entries.specs.Entries.{numbers};
ghost use Rattle.filters.specs.Correction.{innovation_of};
ghost use Rattle.filters.specs.Lent.{buffers, Held};
ghost use Rattle.filters.specs.Corrected.{Renewed};

use answers::{Answer, Refusal};

// Two states, one observation: done, the pivot is refused, or 9 where the new x or P is not all finite.
pub fn correct_two(
    x: &mut [f32],
    p: &mut [f32],
    h: &[f32],
    z: &[f32],
    r: &[f32],
    y: &mut [f32],
    s: &mut [f32],
    k: &mut [f32],
    temp_s_inv: &mut [f32],
    temp_hp: &mut [f32],
    temp_pht: &mut [f32],
    temp_khp: &mut [f32],
) -> Answer
    requires { Held 2 1 (buffers x.old p.old h.now [] r.now y.old s.old k.old temp_s_inv.old temp_hp.old temp_pht.old temp_khp.old) × (1 ≤ length z.now) }
    ensures y { y.new ≡ run 0 1 (innovation_of binary32 2 (cell 2 h.now) (numbers x.old) (numbers z.now)) y.old }
    ensures renewed { Renewed binary32 2 1 (Ok tt) result
        (buffers x.old p.old h.now [] r.now y.new s.old k.old temp_s_inv.old temp_hp.old temp_pht.old temp_khp.old)
        (buffers x.new p.new h.now [] r.now y.new s.new k.new temp_s_inv.new temp_hp.new temp_pht.new temp_khp.new) }
{
    let b = two_stages::read_operands(&*x, &*p, h, z, r);
    let seen = two_stages::observe(b);
    y[0] = seen.y;
    side_by_side::put_two(temp_hp, 0, 0.0 + seen.u0, 0.0 + seen.u1);
    if !pivots::taken(seen.s) {
        s[0] = seen.s * 0.0;
        return Err(Refusal::Pivot(0));
    }
    let l = data_type::square_root(seen.s);
    let d = data_type::recip(l);
    let i = 1.0 * d * d;
    let v = two_stages::renew(b, seen, i);
    s[0] = l;
    temp_s_inv[0] = i;
    side_by_side::put_two(temp_pht, 0, 0.0 + seen.v0, 0.0 + seen.v1);
    side_by_side::put_two(k, 0, v.k0, v.k1);
    side_by_side::put(temp_khp, 0, v.t);
    if two_stages::is_fine(v.w0, v.w1, v.n) {
        side_by_side::put_two(x, 0, v.w0, v.w1);
        side_by_side::put(p, 0, v.n);
        return Ok(());
    }
    Err(Refusal::NotFinite)
}
