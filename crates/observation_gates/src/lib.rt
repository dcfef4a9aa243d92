// Refusals 1 and 2 of the innovation, the update and the correction: n and m, then the buffers.
//
// What the update and the correction share is in pieces of two and three tests: the compiler takes so
// small a function into both of its callers, and no answer goes through memory.
#![tactic(auto)]

ghost use Rattle.std.specs.Prelude.{◌≡◌, true, ◌&&◌, [], ◌∷◌, ◌++◌, ◌+◌, ◌*◌, ◌≤◌, eqb, leb};
ghost use Rattle.answers.specs.Answers.{is_done, first_of};
ghost use Rattle.answers.specs.Tests.{lent, buffer_test, buffer_tests, after_tests, call_answer};
ghost use Rattle.filters.specs.Lent.{front, from_r, innovation_answer};
ghost use Rattle.observation_gates.specs.Fits.{all_fit};

use answers::Answer;

// The answer for x, H, z and y, of which each length is given.
pub fn innovation(n: usize, m: usize, lx: usize, lh: usize, lz: usize, ly: usize) -> Answer
    ensures { result ≡ innovation_answer n m lx lh lz ly }
{
    let states = answers::then_size(Ok(()), 0, n);
    let sizes = answers::then_size(states, 1, m);
    let x = answers::then_buffer(sizes, 0, n, lx);
    let h = answers::then_matrix(x, 1, m, n, lh);
    let z = answers::then_buffer(h, 2, m, lz);
    answers::then_buffer(z, 3, m, ly)
}

// The answer for n and m, and for x, P and H.
fn front_of(n: usize, m: usize, lx: usize, lp: usize, lh: usize) -> Answer
    ensures { result ≡ call_answer (n ∷ m ∷ []) (front n m lx lp lh) [] }
{
    let states = answers::then_size(Ok(()), 0, n);
    let sizes = answers::then_size(states, 1, m);
    let x = answers::then_buffer(sizes, 0, n, lx);
    let p = answers::then_matrix(x, 1, n, n, lp);
    answers::then_matrix(p, 2, m, n, lh)
}

// The answer so far, and then for R, y and S, of which R has the index i.
fn then_residual(v: Answer, i: usize, m: usize, lr: usize, ly: usize, ls: usize) -> Answer
    requires { i ≤ 9 }
    ensures { result ≡ first_of (first_of (first_of v (buffer_test i (m * m) lr)) (buffer_test (i + 1) m ly)) (buffer_test (i + 2) (m * m) ls) }
{
    let r = answers::then_matrix(v, i, m, m, lr);
    let y = answers::then_buffer(r, i + 1, m, ly);
    answers::then_matrix(y, i + 2, m, m, ls)
}

// The answer so far, and then for K and temp_S_inv, of which K has the index i.
fn then_gain(v: Answer, i: usize, n: usize, m: usize, lk: usize, li: usize) -> Answer
    requires { i ≤ 9 }
    ensures { result ≡ first_of (first_of v (buffer_test i (n * m) lk)) (buffer_test (i + 1) (m * m) li) }
{
    let k = answers::then_matrix(v, i, n, m, lk);
    answers::then_matrix(k, i + 1, m, m, li)
}

// The answer so far, and then for temp_HP, temp_PHt and temp_KHP, of which temp_HP has the index i.
fn then_products(
    v: Answer,
    i: usize,
    n: usize,
    m: usize,
    lhp: usize,
    lpht: usize,
    lkhp: usize,
) -> Answer
    requires { i ≤ 9 }
    ensures { result ≡ first_of (first_of (first_of v (buffer_test i (m * n) lhp)) (buffer_test (i + 1) (n * m) lpht)) (buffer_test (i + 2) (n * n) lkhp) }
{
    let hp = answers::then_matrix(v, i, m, n, lhp);
    let pht = answers::then_matrix(hp, i + 1, n, m, lpht);
    answers::then_matrix(pht, i + 2, n, n, lkhp)
}

// Whether it was so far, and a buffer of len numbers has as many as its matrix has cells.
fn fits_too(so_far: bool, cells: usize, len: usize) -> bool
    ensures { result ≡ so_far && leb cells len }
{
    so_far && cells <= len
}

// Whether z, R, y, S, K, temp_S_inv, temp_HP, temp_PHt and temp_KHP hold their matrices.
fn rest_fits(
    n: usize,
    m: usize,
    lz: usize,
    lr: usize,
    ly: usize,
    ls: usize,
    lk: usize,
    li: usize,
    lhp: usize,
    lpht: usize,
    lkhp: usize,
) -> bool
    requires { (n ≤ 16) × (m ≤ 16) }
    ensures { result ≡ all_fit true (lent m lz ∷ from_r n m lr ly ls lk li lhp lpht lkhp) }
{
    let mm = m * m;
    let nm = n * m;
    let mn = m * n;
    let nn = n * n;
    let z = fits_too(true, m, lz);
    let r = fits_too(z, mm, lr);
    let y = fits_too(r, m, ly);
    let s = fits_too(y, mm, ls);
    let k = fits_too(s, nm, lk);
    let inv = fits_too(k, mm, li);
    let hp = fits_too(inv, mn, lhp);
    let pht = fits_too(hp, nm, lpht);
    fits_too(pht, nn, lkhp)
}

// The answer for x, P, H, R, y, S, K, temp_S_inv, temp_HP, temp_PHt and temp_KHP.
pub fn update(
    n: usize,
    m: usize,
    lx: usize,
    lp: usize,
    lh: usize,
    lr: usize,
    ly: usize,
    ls: usize,
    lk: usize,
    li: usize,
    lhp: usize,
    lpht: usize,
    lkhp: usize,
) -> Answer
    ensures { result ≡ call_answer (n ∷ m ∷ []) (front n m lx lp lh ++ from_r n m lr ly ls lk li lhp lpht lkhp) [] }
{
    let h = front_of(n, m, lx, lp, lh);
    let s = then_residual(h, 3, m, lr, ly, ls);
    let inv = then_gain(s, 6, n, m, lk, li);
    then_products(inv, 8, n, m, lhp, lpht, lkhp)
}

// Whether there are two observations or more, the answer so far is done, and those buffers fit too.
fn all_fit(
    v: Answer,
    n: usize,
    m: usize,
    lz: usize,
    lr: usize,
    ly: usize,
    ls: usize,
    lk: usize,
    li: usize,
    lhp: usize,
    lpht: usize,
    lkhp: usize,
) -> bool
    requires { is_done v ≡ true → (n ≤ 16) × (m ≤ 16) }
    ensures { result ≡ leb 2 m && (is_done v && all_fit true (lent m lz ∷ from_r n m lr ly ls lk li lhp lpht lkhp)) }
{
    if m < 2 {
        return false;
    }
    if answers::is_done(v) {
        return rest_fits(n, m, lz, lr, ly, ls, lk, li, lhp, lpht, lkhp);
    }
    false
}

// Whether there are one state and one observation.
fn both_one(n: usize, m: usize) -> bool
    ensures { result ≡ eqb n 1 && eqb m 1 }
{
    n == 1 && m == 1
}

// Whether there are one state and one observation, and all twelve buffers of a correction hold their
// matrices. The compiler makes one jump of it.
pub fn ones_fit(
    n: usize,
    m: usize,
    lx: usize,
    lp: usize,
    lh: usize,
    lz: usize,
    lr: usize,
    ly: usize,
    ls: usize,
    lk: usize,
    li: usize,
    lhp: usize,
    lpht: usize,
    lkhp: usize,
) -> bool
    ensures { result ≡ all_fit (eqb n 1 && eqb m 1) (front 1 1 lx lp lh ++ lent 1 lz ∷ from_r 1 1 lr ly ls lk li lhp lpht lkhp) }
{
    let sizes = both_one(n, m);
    let x = fits_too(sizes, 1, lx);
    let p = fits_too(x, 1, lp);
    let h = fits_too(p, 1, lh);
    let z = fits_too(h, 1, lz);
    let r = fits_too(z, 1, lr);
    let y = fits_too(r, 1, ly);
    let s = fits_too(y, 1, ls);
    let k = fits_too(s, 1, lk);
    let inv = fits_too(k, 1, li);
    let hp = fits_too(inv, 1, lhp);
    let pht = fits_too(hp, 1, lpht);
    fits_too(pht, 1, lkhp)
}

// The answer so far, and then for z, R, y, S, K, temp_S_inv, temp_HP, temp_PHt and temp_KHP.
fn rest_of(
    v: Answer,
    n: usize,
    m: usize,
    lz: usize,
    lr: usize,
    ly: usize,
    ls: usize,
    lk: usize,
    li: usize,
    lhp: usize,
    lpht: usize,
    lkhp: usize,
) -> Answer
    ensures { result ≡ after_tests v (buffer_tests 3 (lent m lz ∷ from_r n m lr ly ls lk li lhp lpht lkhp)) }
{
    let z = answers::then_buffer(v, 3, m, lz);
    let s = then_residual(z, 4, m, lr, ly, ls);
    let inv = then_gain(s, 7, n, m, lk, li);
    then_products(inv, 9, n, m, lhp, lpht, lkhp)
}

// The answer for x, P, H, z, R, y, S, K, temp_S_inv, temp_HP, temp_PHt and temp_KHP. The compiler makes one
// jump of nine tests whose outcome is one bit; only a call that is refused, or has one observation, asks
// them one by one.
pub fn correction(
    n: usize,
    m: usize,
    lx: usize,
    lp: usize,
    lh: usize,
    lz: usize,
    lr: usize,
    ly: usize,
    ls: usize,
    lk: usize,
    li: usize,
    lhp: usize,
    lpht: usize,
    lkhp: usize,
) -> Answer
    ensures { result ≡ call_answer (n ∷ m ∷ []) (front n m lx lp lh ++ lent m lz ∷ from_r n m lr ly ls lk li lhp lpht lkhp) [] }
{
    let h = front_of(n, m, lx, lp, lh);
    if all_fit(h, n, m, lz, lr, ly, ls, lk, li, lhp, lpht, lkhp) {
        return Ok(());
    }
    rest_of(h, n, m, lz, lr, ly, ls, lk, li, lhp, lpht, lkhp)
}
