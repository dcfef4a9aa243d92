// The residual's covariance in a correction and its lower factor, for the crate above, which has tested
// sizes and buffers; not for users.
#![tactic(auto)]

ghost use Rattle.std.specs.Prelude.{◌≡◌, ℕ, ◌*◌, ◌≤◌, length, get_or};
ghost use Rattle.std.specs.Float.{binary32, nan};
ghost use Rattle.std.specs.Float.Ieee.{add};
ghost use Rattle.grids.specs.Grid.{cell, grid};
ghost use Rattle.entries.specs.Entries.{product, product_t, Transposed};
ghost use Rattle.factors.specs.Decomposition.{reached, decomposed, SameUpper};
ghost use Rattle.filters.specs.Correction.{hp_of, factor_of, pivot_of};

// S = temp_HP·Hᵀ + R: in one go where S is small. Four observations or more have Hᵀ in t.
fn whole_cells(n: usize, m: usize, temp_hp: &[f32], h: &[f32], t: &[f32], r: &[f32], s: &mut [f32])
    requires { (m * n ≤ length temp_hp.now) × (m * n ≤ length h.now) × (n * m ≤ length t.now) × (m * m ≤ length r.now) × (m * m ≤ length s.old) × (n ≤ 16) × (m ≤ 16) × (1 ≤ m) × (4 ≤ m → Transposed n m t.now h.now) }
    ensures { s.new ≡ grid m m (λ i j. add binary32 (product_t binary32 n temp_hp.now h.now i j) (cell m r.now i j)) s.old }
{
    if m < 4 {
        thin_sums::thin_plus(m, n, m, &*temp_hp, &*h, &*r, s);
    } else {
        times_matrix::wide_cells(m, n, m, &*temp_hp, &*t, s);
        sums::cores::add_cells_a(m * m, s, &*r);
    }
}

// temp_HP·Hᵀ on the diagonal and above it, for four observations or more, with Hᵀ in t. Other cells of S may
// change.
fn upper_products(n: usize, m: usize, temp_hp: &[f32], t: &[f32], s: &mut [f32])
    requires { (m * n ≤ length temp_hp.now) × (n * m ≤ length t.now) × (m * m ≤ length s.old) × (4 ≤ m) × (m ≤ 16) }
    ensures upper { SameUpper m (cell m s.new) (product binary32 n m temp_hp.now t.now) }
    ensures size { length s.new ≡ length s.old }
    ensures past { (k : ℕ) → m * m ≤ k → get_or s.new k nan ≡ get_or s.old k nan }
{
    if m < 13 {
        times_matrix::wide_cells(m, n, m, &*temp_hp, &*t, s);
    } else {
        right_halves::upper_cells(n, m, &*temp_hp, &*t, s);
    }
}

// S on the diagonal and above it.
fn upper_cells(n: usize, m: usize, temp_hp: &[f32], h: &[f32], t: &[f32], r: &[f32], s: &mut [f32])
    requires { (m * n ≤ length temp_hp.now) × (m * n ≤ length h.now) × (n * m ≤ length t.now) × (m * m ≤ length r.now) × (m * m ≤ length s.old) × (n ≤ 16) × (m ≤ 16) × (4 ≤ m) × Transposed n m t.now h.now }
    ensures upper { SameUpper m (cell m s.new) (λ i j. add binary32 (product_t binary32 n temp_hp.now h.now i j) (cell m r.now i j)) }
    ensures size { length s.new ≡ length s.old }
    ensures past { (k : ℕ) → m * m ≤ k → get_or s.new k nan ≡ get_or s.old k nan }
{
    upper_products(n, m, &*temp_hp, &*t, s);
    sums::cores::add_cells_a(m * m, s, &*r);
}

// m, and in S its lower factor, which is formed from the diagonal and above it alone, where there are nine
// observations or more and each pivot is taken. Otherwise less than m comes back, with any numbers in S.
fn factor_cells(
    n: usize,
    m: usize,
    temp_hp: &[f32],
    h: &[f32],
    t: &[f32],
    r: &[f32],
    s: &mut [f32],
) -> usize
    requires { (m * n ≤ length temp_hp.now) × (m * n ≤ length h.now) × (n * m ≤ length t.now) × (m * m ≤ length r.now) × (m * m ≤ length s.old) × (n ≤ 16) × (m ≤ 16) × (1 ≤ m) × (4 ≤ m → Transposed n m t.now h.now) }
    ensures taken { m ≤ result → (result ≡ reached binary32 m (λ i j. add binary32 (product_t binary32 n temp_hp.now h.now i j) (cell m r.now i j))) × (s.new ≡ grid m m (decomposed binary32 m (λ i j. add binary32 (product_t binary32 n temp_hp.now h.now i j) (cell m r.now i j))) s.old) }
    ensures size { length s.new ≡ length s.old }
    ensures past { (k : ℕ) → m * m ≤ k → get_or s.new k nan ≡ get_or s.old k nan }
{
    if m < 9 {
        return 0;
    }
    upper_cells(n, m, &*temp_hp, &*h, &*t, &*r, s);
    upper_rows::factor_rows(m, s)
}

// temp_HP = H·P, S = temp_HP·Hᵀ + R, and S's decomposition: the index of the pivot that is refused, or m.
// Four observations or more have Hᵀ in t. Where a pivot of nine or more is refused, S is formed once more,
// whole.
pub fn residual_cells(
    n: usize,
    m: usize,
    p: &[f32],
    h: &[f32],
    t: &[f32],
    r: &[f32],
    s: &mut [f32],
    temp_hp: &mut [f32],
) -> usize
    requires { (1 ≤ n) × (n * n ≤ length p.now) × (m * n ≤ length h.now) × (m * m ≤ length r.now) × (m * m ≤ length s.old) × (m * n ≤ length temp_hp.old) × (1 ≤ m) × (n ≤ 16) × (m ≤ 16) × (n * m ≤ length t.now) × (4 ≤ m → Transposed n m t.now h.now) }
    ensures index { result ≡ pivot_of binary32 n m (cell n h.now) (cell n p.now) (cell m r.now) }
    ensures hp { temp_hp.new ≡ grid m n (hp_of binary32 n (cell n h.now) (cell n p.now)) temp_hp.old }
    ensures s { s.new ≡ grid m m (factor_of binary32 n m (cell n h.now) (cell n p.now) (cell m r.now)) s.old }
{
    times_matrix::mult_cells(m, n, n, &*h, &*p, temp_hp);
    let i = factor_cells(n, m, temp_hp, &*h, &*t, &*r, s);
    if m <= i {
        return i;
    }
    whole_cells(n, m, temp_hp, &*h, &*t, &*r, s);
    cholesky::cores::decompose_cells(m, s)
}
