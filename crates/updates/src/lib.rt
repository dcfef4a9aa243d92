// The steps of a correction, for the crates above, which have tested sizes and buffers; not for users:
// the innovation, the residual's covariance, the gain. The last one is that of `renewals`.
#![tactic(auto)]

ghost use Rattle.std.specs.Prelude.{◌≡◌, ◌*◌, ◌≤◌, length};
ghost use Rattle.std.specs.Float.{binary32};
ghost use Rattle.std.specs.Float.Ieee.{add};
ghost use Rattle.grids.specs.Grid.{cell, run, grid};
ghost use Rattle.entries.specs.Entries.{times, product_t, numbers};
ghost use Rattle.factors.specs.Inverse.{inverse};
ghost use Rattle.filters.specs.Correction.{innovation_of, hp_of, factor_of, pivot_of, pht_of};

// y = z − H·x.
pub fn innovate_cells(n: usize, m: usize, x: &[f32], h: &[f32], z: &[f32], y: &mut [f32])
    requires { (1 ≤ n) × (n ≤ length x.now) × (m * n ≤ length h.now) × (m ≤ length z.now) × (m ≤ length y.old) }
    ensures { y.new ≡ run 0 m (innovation_of binary32 n (cell n h.now) (numbers x.now) (numbers z.now)) y.old }
{
    times_vector::rowvector_cells(m, n, &*h, &*x, y);
    sums::cores::sub_cells_b(m, &*z, y);
}

// S = temp_HP·Hᵀ + R: in one go where S is small.
fn undecomposed_cells(n: usize, m: usize, temp_hp: &[f32], h: &[f32], r: &[f32], s: &mut [f32])
    requires { (m * n ≤ length temp_hp.now) × (m * n ≤ length h.now) × (m * m ≤ length r.now) × (m * m ≤ length s.old) × (1 ≤ m) × (n ≤ 16) × (m ≤ 16) }
    ensures { s.new ≡ grid m m (λ i j. add binary32 (product_t binary32 n temp_hp.now h.now i j) (cell m r.now i j)) s.old }
{
    if m < 4 {
        thin_sums::thin_plus(m, n, m, &*temp_hp, &*h, &*r, s);
    } else {
        times_transpose::transb_cells(m, n, m, &*temp_hp, &*h, s);
        sums::cores::add_cells_a(m * m, s, &*r);
    }
}

// temp_HP = H·P, and S = temp_HP·Hᵀ + R decomposed: the index of the pivot that is refused comes
// back, or m.
pub fn residual_cells(
    n: usize,
    m: usize,
    p: &[f32],
    h: &[f32],
    r: &[f32],
    s: &mut [f32],
    temp_hp: &mut [f32],
) -> usize
    requires { (1 ≤ n) × (n * n ≤ length p.now) × (m * n ≤ length h.now) × (m * m ≤ length r.now) × (m * m ≤ length s.old) × (m * n ≤ length temp_hp.old) × (1 ≤ m) × (n ≤ 16) × (m ≤ 16) }
    ensures index { result ≡ pivot_of binary32 n m (cell n h.now) (cell n p.now) (cell m r.now) }
    ensures hp { temp_hp.new ≡ grid m n (hp_of binary32 n (cell n h.now) (cell n p.now)) temp_hp.old }
    ensures s { s.new ≡ grid m m (factor_of binary32 n m (cell n h.now) (cell n p.now) (cell m r.now)) s.old }
{
    times_matrix::mult_cells(m, n, n, &*h, &*p, temp_hp);
    undecomposed_cells(n, m, temp_hp, &*h, &*r, s);
    cholesky::cores::decompose_cells(m, s)
}

// temp_S_inv = the inverse from the factor in S, temp_PHt = P·Hᵀ, and K = temp_PHt·temp_S_inv.
pub fn gain_cells(
    n: usize,
    m: usize,
    p: &[f32],
    h: &[f32],
    s: &[f32],
    k: &mut [f32],
    temp_s_inv: &mut [f32],
    temp_pht: &mut [f32],
)
    requires { (1 ≤ n) × (n * n ≤ length p.now) × (m * n ≤ length h.now) × (m * m ≤ length s.now) × (n * m ≤ length k.old) × (m * m ≤ length temp_s_inv.old) × (n * m ≤ length temp_pht.old) × (1 ≤ m) × (n ≤ 16) × (m ≤ 16) }
    ensures inverse { temp_s_inv.new ≡ grid m m (inverse binary32 m (cell m s.now) (cell m temp_s_inv.old)) temp_s_inv.old }
    ensures pht { temp_pht.new ≡ grid n m (pht_of binary32 n (cell n h.now) (cell n p.now)) temp_pht.old }
    ensures k { k.new ≡ grid n m (times binary32 m (pht_of binary32 n (cell n h.now) (cell n p.now)) (inverse binary32 m (cell m s.now) (cell m temp_s_inv.old))) k.old }
{
    inverse::cores::invert_cells(m, &*s, temp_s_inv);
    times_transpose::transb_cells(n, n, m, &*p, &*h, temp_pht);
    times_matrix::mult_cells(n, m, m, temp_pht, temp_s_inv, k);
}
