// The gain by Hᵀ where it is turned, for four observations or more.
ghost use Rattle.std.specs.Prelude.{◌≡◌, ◌*◌, ◌≤◌, length};
ghost use Rattle.std.specs.Float.{binary32};
ghost use Rattle.grids.specs.Grid.{cell, grid};
ghost use Rattle.entries.specs.Entries.{times, product_t, Transposed};
ghost use Rattle.factors.specs.Inverse.{inverse};
ghost use Rattle.filters.specs.Correction.{pht_of};

// temp_PHt = P·Hᵀ. Four observations or more have Hᵀ in t.
fn by_turned(n: usize, m: usize, p: &[f32], h: &[f32], t: &[f32], temp_pht: &mut [f32])
    requires { (n * n ≤ length p.now) × (m * n ≤ length h.now) × (n * m ≤ length t.now) × (n * m ≤ length temp_pht.old) × (1 ≤ m) × (m ≤ 16) × (n ≤ 16) × (4 ≤ m → Transposed n m t.now h.now) }
    ensures { temp_pht.new ≡ grid n m (product_t binary32 n p.now h.now) temp_pht.old }
{
    if m < 4 {
        thin_products::thin_cells(n, n, m, &*p, &*h, 1, n, temp_pht);
    } else {
        times_matrix::wide_cells(n, n, m, &*p, &*t, temp_pht);
    }
}

// temp_S_inv = the inverse from the factor in S, temp_PHt = P·Hᵀ, and K = temp_PHt·temp_S_inv.
pub fn gain_turned(
    n: usize,
    m: usize,
    p: &[f32],
    h: &[f32],
    t: &[f32],
    s: &[f32],
    k: &mut [f32],
    temp_s_inv: &mut [f32],
    temp_pht: &mut [f32],
)
    requires { (1 ≤ n) × (n * n ≤ length p.now) × (m * n ≤ length h.now) × (m * m ≤ length s.now) × (n * m ≤ length k.old) × (m * m ≤ length temp_s_inv.old) × (n * m ≤ length temp_pht.old) × (1 ≤ m) × (n ≤ 16) × (m ≤ 16) × (n * m ≤ length t.now) × (4 ≤ m → Transposed n m t.now h.now) }
    ensures inverse { temp_s_inv.new ≡ grid m m (inverse binary32 m (cell m s.now) (cell m temp_s_inv.old)) temp_s_inv.old }
    ensures pht { temp_pht.new ≡ grid n m (pht_of binary32 n (cell n h.now) (cell n p.now)) temp_pht.old }
    ensures k { k.new ≡ grid n m (times binary32 m (pht_of binary32 n (cell n h.now) (cell n p.now)) (inverse binary32 m (cell m s.now) (cell m temp_s_inv.old))) k.old }
{
    inverse::cores::invert_cells(m, &*s, temp_s_inv);
    by_turned(n, m, &*p, &*h, &*t, temp_pht);
    times_matrix::mult_cells(n, m, m, temp_pht, temp_s_inv, k);
}
