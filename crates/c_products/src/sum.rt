// Sums and differences, entry by entry.
ghost use Rattle.std.specs.Float.{binary32};
ghost use Rattle.std.specs.Float.Ieee.{add, sub};
ghost use Rattle.grids.specs.Sums.{Combined, InPlace};
ghost use Rattle.c_codes.specs.Code.{Told};

// a − b in c, all of rows by cols.
#[unsafe(no_mangle)]
pub extern "C" fn yurgamysh_sub(
    rows: usize,
    cols: usize,
    a: &[f32],
    b: &[f32],
    c: &mut [f32],
) -> usize
    ensures { Told (λ v. Combined (sub binary32) rows cols a.now b.now c.old v c.new) result }
{
    c_codes::code_of(sums::sub(rows, cols, &*a, &*b, c))
}

// a − b in a.
#[unsafe(no_mangle)]
pub extern "C" fn yurgamysh_sub_inplace_a(
    rows: usize,
    cols: usize,
    a: &mut [f32],
    b: &[f32],
) -> usize
    ensures { Told (λ v. InPlace (sub binary32) rows cols a.old b.now a.old v a.new) result }
{
    c_codes::code_of(sums::sub_inplace_a(rows, cols, a, &*b))
}

// a − b, and not b − a, in b.
#[unsafe(no_mangle)]
pub extern "C" fn yurgamysh_sub_inplace_b(
    rows: usize,
    cols: usize,
    a: &[f32],
    b: &mut [f32],
) -> usize
    ensures { Told (λ v. InPlace (sub binary32) rows cols a.now b.old b.old v b.new) result }
{
    c_codes::code_of(sums::sub_inplace_b(rows, cols, &*a, b))
}

// a + b in a.
#[unsafe(no_mangle)]
pub extern "C" fn yurgamysh_add_inplace_a(
    rows: usize,
    cols: usize,
    a: &mut [f32],
    b: &[f32],
) -> usize
    ensures { Told (λ v. InPlace (add binary32) rows cols a.old b.now a.old v a.new) result }
{
    c_codes::code_of(sums::add_inplace_a(rows, cols, a, &*b))
}

// a + b in b.
#[unsafe(no_mangle)]
pub extern "C" fn yurgamysh_add_inplace_b(
    rows: usize,
    cols: usize,
    a: &[f32],
    b: &mut [f32],
) -> usize
    ensures { Told (λ v. InPlace (add binary32) rows cols a.now b.old b.old v b.new) result }
{
    c_codes::code_of(sums::add_inplace_b(rows, cols, &*a, b))
}
