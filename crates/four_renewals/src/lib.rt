// The correction of four states by two observations past its pivots: what the stages give, stored, for
// the crate above, which has tested sizes and buffers; not for users. x and P are stored last, where every
// number of both is finite.
#![tactic(auto)]

ghost use Rattle.std.specs.Prelude.{[], ◌≤◌, length};
ghost use Rattle.filters.specs.Lent.{buffers};
ghost use Rattle.four_renewals.specs.Finished.{Finished};

use answers::{Answer, Refusal};
use four_stages::{Operands, Root, Seen};

// Past the pivots: the inverse, P·Hᵀ, the gain and its product with H·P, and x and P where they are finite.
pub fn finish(
    b: Operands,
    seen: Seen,
    root: Root,
    x: &mut [f32],
    p: &mut [f32],
    k: &mut [f32],
    temp_s_inv: &mut [f32],
    temp_pht: &mut [f32],
    temp_khp: &mut [f32],
) -> Answer
    requires { (4 ≤ length x.old) × (16 ≤ length p.old) × (8 ≤ length k.old) × (4 ≤ length temp_s_inv.old) × (8 ≤ length temp_pht.old) × (16 ≤ length temp_khp.old) }
    ensures { Finished b seen root result
        (buffers x.old p.old [] [] [] [] [] k.old temp_s_inv.old [] temp_pht.old temp_khp.old)
        (buffers x.new p.new [] [] [] [] [] k.new temp_s_inv.new [] temp_pht.new temp_khp.new) }
{
    let gain = four_stages::gain_of(b.p, b.h, root);
    let t = four_stages::spread_of(gain.k, seen.g);
    let n = four_stages::lessen(b.p, t);
    let w = four_stages::move_by(b.x, gain.k, seen.y0, seen.y1);
    side_by_side::put(temp_s_inv, 0, gain.i);
    four_values::put_eight(temp_pht, gain.f);
    four_values::put_eight(k, gain.k);
    four_values::put_sixteen(temp_khp, t);
    if four_stages::is_fine(w, n) {
        side_by_side::put(x, 0, w);
        four_values::put_sixteen(p, n);
        return Ok(());
    }
    Err(Refusal::NotFinite)
}
