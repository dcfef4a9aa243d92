// The gain for three observations, for the crates above, which have tested sizes and buffers; not for users.
// Hᵀ is written once, in rows of four numbers of which the last is +0: so S and P·Hᵀ are products of four
// columns, whose totals run side by side. S goes from there to its factor and its inverse as numbers; P·Hᵀ
// waits for neither.
#![tactic(auto)]

ghost use Rattle.std.specs.Prelude.{◌≡◌, cond, ◌*◌, ◌≤◌, ◌<◌, ltb, length};
ghost use Rattle.std.specs.Float.{binary32};
ghost use Rattle.std.specs.Float.Ieee.{add};
ghost use Rattle.grids.specs.Grid.{cell, grid};
ghost use Rattle.side_by_side.specs.Chunks.{Chunk};
ghost use Rattle.entries.specs.Entries.{times, product};
ghost use Rattle.filters.specs.Correction.{hp_of, factor_of, pivot_of, inverse_of, pht_of, gain_of};
ghost use Rattle.three_solved.specs.Solved.{inverse_in, solved_of};
ghost use Rattle.three_gains.specs.Widened.{widened, gain_at};

use side_by_side::Four;
use thin_products::Three;
use three_solved::Solved;

// Column k of h, of three rows of n, and +0.
fn column(n: usize, h: &[f32], k: usize) -> Four
    requires { (k < n) × (3 * n ≤ length h.now) }
    ensures { Chunk (widened (cell n h.now) k) 0 result }
{
    Four {
        t0: h[k],
        t1: h[n + k],
        t2: h[n + n + k],
        t3: 0.0,
    }
}

// hᵀ, in rows of four, into t.
fn turn_three(n: usize, h: &[f32], t: &mut [f32])
    requires { (3 * n ≤ length h.now) × (n * 4 ≤ length t.old) }
    ensures { t.new ≡ grid n 4 (widened (cell n h.now)) t.old }
{
    for k in 0..n {
        side_by_side::put(t, k * 4, column(n, &*h, k));
    }
}

// S = hp·t + r, of which the entries on and above the diagonal count: its factor and its inverse, where every
// pivot is taken.
fn solve(n: usize, hp: &[f32], t: &[f32], r: &[f32]) -> Option<Solved>
    requires { (3 * n ≤ length hp.now) × (n * 4 ≤ length t.now) × (9 ≤ length r.now) }
    ensures { result ≡ solved_of binary32
        (add binary32 (product binary32 n 4 hp.now t.now 0 0) (cell 3 r.now 0 0))
        (add binary32 (product binary32 n 4 hp.now t.now 0 1) (cell 3 r.now 0 1))
        (add binary32 (product binary32 n 4 hp.now t.now 0 2) (cell 3 r.now 0 2))
        (add binary32 (product binary32 n 4 hp.now t.now 1 1) (cell 3 r.now 1 1))
        (add binary32 (product binary32 n 4 hp.now t.now 1 2) (cell 3 r.now 1 2))
        (add binary32 (product binary32 n 4 hp.now t.now 2 2) (cell 3 r.now 2 2)) }
{
    let mut s = [0.0; 12];
    times_matrix::four_columns(3, n, 4, &*hp, &*t, &mut s);
    three_solved::solve_three(
        s[0] + r[0],
        s[1] + r[1],
        s[2] + r[2],
        s[5] + r[4],
        s[6] + r[5],
        s[10] + r[8],
    )
}

// A row of the gain, from the row of P·Hᵀ.
fn gain_row(a: Three, v: Solved) -> Three
    ensures { (result.t0 ≡ gain_at binary32 a v 0) × (result.t1 ≡ gain_at binary32 a v 1) × (result.t2 ≡ gain_at binary32 a v 2) }
{
    Three {
        t0: 0.0 + a.t0 * v.i00 + a.t1 * v.i01 + a.t2 * v.i02,
        t1: 0.0 + a.t0 * v.i01 + a.t1 * v.i11 + a.t2 * v.i12,
        t2: 0.0 + a.t0 * v.i02 + a.t1 * v.i12 + a.t2 * v.i22,
    }
}

// P·Hᵀ out of f, which has it in rows of four, into temp_PHt; and the gain into K.
fn put_gains(n: usize, f: &[f32], v: Solved, k: &mut [f32], temp_pht: &mut [f32])
    requires { (n * 4 ≤ length f.now) × (n * 3 ≤ length k.old) × (n * 3 ≤ length temp_pht.old) }
    ensures k { k.new ≡ grid n 3 (times binary32 3 (cell 4 f.now) (inverse_in v)) k.old }
    ensures pht { temp_pht.new ≡ grid n 3 (cell 4 f.now) temp_pht.old }
{
    for r in 0..n {
        let q = r * 4;
        let a = Three {
            t0: f[q],
            t1: f[q + 1],
            t2: f[q + 2],
        };
        thin_products::put_some(temp_pht, r * 3, 3, a);
        thin_products::put_some(k, r * 3, 3, gain_row(a, v));
    }
}

// temp_PHt = p·t, of which the first three columns count, and K = temp_PHt times the inverse in v.
fn gains(n: usize, p: &[f32], t: &[f32], v: Solved, k: &mut [f32], temp_pht: &mut [f32])
    requires { (n ≤ 16) × (n * n ≤ length p.now) × (n * 4 ≤ length t.now) × (n * 3 ≤ length k.old) × (n * 3 ≤ length temp_pht.old) }
    ensures k { k.new ≡ grid n 3 (times binary32 3 (product binary32 n 4 p.now t.now) (inverse_in v)) k.old }
    ensures pht { temp_pht.new ≡ grid n 3 (product binary32 n 4 p.now t.now) temp_pht.old }
{
    let mut f = [0.0; 64];
    times_matrix::four_columns(n, n, 4, &*p, &*t, &mut f);
    put_gains(n, &f, v, k, temp_pht);
}

// temp_HP = H·P; S = temp_HP·Hᵀ + R decomposed: the index of the pivot that is refused comes back, or 3.
// And where it is 3, temp_S_inv, temp_PHt = P·Hᵀ and K = temp_PHt·temp_S_inv. A refusal is left to the
// decomposition itself.
pub fn gain_three(
    n: usize,
    p: &[f32],
    h: &[f32],
    r: &[f32],
    s: &mut [f32],
    k: &mut [f32],
    temp_s_inv: &mut [f32],
    temp_hp: &mut [f32],
    temp_pht: &mut [f32],
) -> usize
    requires { (1 ≤ n) × (n * n ≤ length p.now) × (3 * n ≤ length h.now) × (9 ≤ length r.now) × (9 ≤ length s.old) × (n * 3 ≤ length k.old) × (9 ≤ length temp_s_inv.old) × (3 * n ≤ length temp_hp.old) × (n * 3 ≤ length temp_pht.old) × (n ≤ 16) }
    ensures index { result ≡ pivot_of binary32 n 3 (cell n h.now) (cell n p.now) (cell 3 r.now) }
    ensures hp { temp_hp.new ≡ grid 3 n (hp_of binary32 n (cell n h.now) (cell n p.now)) temp_hp.old }
    ensures s { s.new ≡ grid 3 3 (factor_of binary32 n 3 (cell n h.now) (cell n p.now) (cell 3 r.now)) s.old }
    ensures inverse { temp_s_inv.new ≡ cond (ltb result 3) temp_s_inv.old (grid 3 3 (inverse_of binary32 n 3 (cell n h.now) (cell n p.now) (cell 3 r.now) (cell 3 temp_s_inv.old)) temp_s_inv.old) }
    ensures pht { temp_pht.new ≡ cond (ltb result 3) temp_pht.old (grid n 3 (pht_of binary32 n (cell n h.now) (cell n p.now)) temp_pht.old) }
    ensures k { k.new ≡ cond (ltb result 3) k.old (grid n 3 (gain_of binary32 n 3 (cell n h.now) (cell n p.now) (cell 3 r.now) (cell 3 temp_s_inv.old)) k.old) }
{
    let mut t = [0.0; 64];
    turn_three(n, &*h, &mut t);
    times_matrix::mult_cells(3, n, n, &*h, &*p, temp_hp);
    if let Some(v) = solve(n, temp_hp, &t, &*r) {
        gains(n, &*p, &t, v, k, temp_pht);
        three_solved::put_factor(s, v);
        three_solved::put_inverse(temp_s_inv, v);
        return 3;
    }
    thin_sums::thin_plus(3, n, 3, temp_hp, &*h, &*r, s);
    three_pivots::decompose_three(s)
}
