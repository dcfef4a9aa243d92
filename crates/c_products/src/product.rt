// Products: a·b, a·bᵀ, a·x.
ghost use Rattle.std.specs.Float.{binary32};
ghost use Rattle.entries.specs.Products.{Multiplied, Buffered, MultipliedT, AddedT, ScaledT, RowMultiplied, RowAdded};
ghost use Rattle.c_codes.specs.Code.{Told};

// c = a·b, a of rows by inner and b of inner by cols.
#[unsafe(no_mangle)]
pub extern "C" fn yurgamysh_mult(
    rows: usize,
    inner: usize,
    cols: usize,
    a: &[f32],
    b: &[f32],
    c: &mut [f32],
) -> usize
    ensures { Told (λ v. Multiplied binary32 rows inner cols a.now b.now c.old v c.new) result }
{
    c_codes::code_of(products::mult(rows, inner, cols, &*a, &*b, c))
}

// c = a·b, and aux ends with column 0 of b.
#[unsafe(no_mangle)]
pub extern "C" fn yurgamysh_mult_buffered(
    rows: usize,
    inner: usize,
    cols: usize,
    a: &[f32],
    b: &[f32],
    c: &mut [f32],
    aux: &mut [f32],
) -> usize
    ensures { Told (λ v. Buffered binary32 rows inner cols a.now b.now c.old aux.old v c.new aux.new) result }
{
    c_codes::code_of(products::mult_buffered(rows, inner, cols, &*a, &*b, c, aux))
}

// c = a·bᵀ, a of rows by inner and b of cols by inner.
#[unsafe(no_mangle)]
pub extern "C" fn yurgamysh_mult_transb(
    rows: usize,
    inner: usize,
    cols: usize,
    a: &[f32],
    b: &[f32],
    c: &mut [f32],
) -> usize
    ensures { Told (λ v. MultipliedT binary32 rows inner cols a.now b.now c.old v c.new) result }
{
    c_codes::code_of(products::mult_transb(rows, inner, cols, &*a, &*b, c))
}

// c = c + a·bᵀ.
#[unsafe(no_mangle)]
pub extern "C" fn yurgamysh_multadd_transb(
    rows: usize,
    inner: usize,
    cols: usize,
    a: &[f32],
    b: &[f32],
    c: &mut [f32],
) -> usize
    ensures { Told (λ v. AddedT binary32 rows inner cols a.now b.now c.old v c.new) result }
{
    c_codes::code_of(products::multadd_transb(rows, inner, cols, &*a, &*b, c))
}

// c = a·bᵀ·scale.
#[unsafe(no_mangle)]
pub extern "C" fn yurgamysh_multscale_transb(
    rows: usize,
    inner: usize,
    cols: usize,
    a: &[f32],
    b: &[f32],
    scale: f32,
    c: &mut [f32],
) -> usize
    ensures { Told (λ v. ScaledT binary32 rows inner cols a.now b.now scale c.old v c.new) result }
{
    c_codes::code_of(products::multscale_transb(rows, inner, cols, &*a, &*b, scale, c))
}

// c = a·x, a of rows by inner, x of inner numbers and c of rows numbers.
#[unsafe(no_mangle)]
pub extern "C" fn yurgamysh_mult_rowvector(
    rows: usize,
    inner: usize,
    a: &[f32],
    x: &[f32],
    c: &mut [f32],
) -> usize
    ensures { Told (λ v. RowMultiplied binary32 rows inner a.now x.now c.old v c.new) result }
{
    c_codes::code_of(products::mult_rowvector(rows, inner, &*a, &*x, c))
}

// c = c + a·x.
#[unsafe(no_mangle)]
pub extern "C" fn yurgamysh_multadd_rowvector(
    rows: usize,
    inner: usize,
    a: &[f32],
    x: &[f32],
    c: &mut [f32],
) -> usize
    ensures { Told (λ v. RowAdded binary32 rows inner a.now x.now c.old v c.new) result }
{
    c_codes::code_of(products::multadd_rowvector(rows, inner, &*a, &*x, c))
}
