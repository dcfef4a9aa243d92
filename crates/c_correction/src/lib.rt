// The filter's innovation, update and correction, for C and Rust programs.
//
// A slice arrives as a pointer and a length. Each function hands on to a public function of the crates
// below, says its answer as a code, and keeps that function's promise.
#![tactic(auto)]

ghost use Rattle.std.specs.Prelude.{[]};
ghost use Rattle.std.specs.Float.{binary32};
ghost use Rattle.filters.specs.Lent.{buffers};
ghost use Rattle.filters.specs.Corrected.{Innovated, Updated, Corrected};
ghost use Rattle.c_codes.specs.Code.{Told};

// y = z − H·x.
#[unsafe(no_mangle)]
pub extern "C" fn yurgamysh_innovation(
    n: usize,
    m: usize,
    x: &[f32],
    h: &[f32],
    z: &[f32],
    y: &mut [f32],
) -> usize
    ensures { Told (λ v. Innovated binary32 n m x.now h.now z.now y.old v y.new) result }
{
    c_codes::code_of(innovations::innovation(n, m, &*x, &*h, &*z, y))
}

// x and P after an observation whose innovation is y. Or the first pivot that is not above zero, or not
// finite, NaN included, is named, or the new x or P is not all finite; then x and P are as lent.
#[unsafe(no_mangle)]
pub extern "C" fn yurgamysh_update(
    n: usize,
    m: usize,
    x: &mut [f32],
    p: &mut [f32],
    h: &[f32],
    r: &[f32],
    y: &[f32],
    s: &mut [f32],
    k: &mut [f32],
    temp_s_inv: &mut [f32],
    temp_hp: &mut [f32],
    temp_pht: &mut [f32],
    temp_khp: &mut [f32],
) -> usize
    ensures { Told (λ v. Updated binary32 n m
        (buffers x.old p.old h.now [] r.now y.now s.old k.old temp_s_inv.old temp_hp.old temp_pht.old temp_khp.old)
        v
        (buffers x.new p.new h.now [] r.now y.now s.new k.new temp_s_inv.new temp_hp.new temp_pht.new temp_khp.new)) result }
{
    c_codes::code_of(innovations::update_with_innovation(
        n, m, x, p, &*h, &*r, &*y, s, k, temp_s_inv, temp_hp, temp_pht, temp_khp,
    ))
}

// The same for the observation z: its innovation goes into y first.
#[unsafe(no_mangle)]
pub extern "C" fn yurgamysh_correct(
    n: usize,
    m: usize,
    x: &mut [f32],
    p: &mut [f32],
    h: &[f32],
    z: &[f32],
    r: &[f32],
    y: &mut [f32],
    s: &mut [f32],
    k: &mut [f32],
    temp_s_inv: &mut [f32],
    temp_hp: &mut [f32],
    temp_pht: &mut [f32],
    temp_khp: &mut [f32],
) -> usize
    ensures { Told (λ v. Corrected binary32 n m
        (buffers x.old p.old h.now z.now r.now y.old s.old k.old temp_s_inv.old temp_hp.old temp_pht.old temp_khp.old)
        v
        (buffers x.new p.new h.now z.now r.now y.new s.new k.new temp_s_inv.new temp_hp.new temp_pht.new temp_khp.new)) result }
{
    c_codes::code_of(readings::correct(
        n, m, x, p, &*h, &*z, &*r, y, s, k, temp_s_inv, temp_hp, temp_pht, temp_khp,
    ))
}
