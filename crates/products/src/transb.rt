// a·bᵀ: stored, added to c, or scaled.
ghost use Rattle.std.specs.Float.{binary32};
ghost use Rattle.entries.specs.Products.{MultipliedT, AddedT, ScaledT};

use crate::gates;
use answers::Answer;

// c = a·bᵀ, a of rows by inner and b of cols by inner.
pub fn mult_transb(
    rows: usize,
    inner: usize,
    cols: usize,
    a: &[f32],
    b: &[f32],
    c: &mut [f32],
) -> Answer
    ensures { MultipliedT binary32 rows inner cols a.now b.now c.old result c.new }
{
    gates::product(rows, inner, cols, a.len(), b.len(), c.len())?;
    times_transpose::transb_cells(rows, inner, cols, &*a, &*b, c);
    Ok(())
}

// c = c + a·bᵀ.
pub fn multadd_transb(
    rows: usize,
    inner: usize,
    cols: usize,
    a: &[f32],
    b: &[f32],
    c: &mut [f32],
) -> Answer
    ensures { AddedT binary32 rows inner cols a.now b.now c.old result c.new }
{
    gates::product(rows, inner, cols, a.len(), b.len(), c.len())?;
    times_transpose::transb_add_cells(rows, inner, cols, &*a, &*b, c);
    Ok(())
}

// c = a·bᵀ·scale.
pub fn multscale_transb(
    rows: usize,
    inner: usize,
    cols: usize,
    a: &[f32],
    b: &[f32],
    scale: f32,
    c: &mut [f32],
) -> Answer
    ensures { ScaledT binary32 rows inner cols a.now b.now scale c.old result c.new }
{
    gates::product(rows, inner, cols, a.len(), b.len(), c.len())?;
    times_transpose::transb_scale_cells(rows, inner, cols, &*a, &*b, scale, c);
    Ok(())
}
