// a·x, a matrix times a vector: stored, or added to c.
ghost use Rattle.std.specs.Float.{binary32};
ghost use Rattle.entries.specs.Products.{RowMultiplied, RowAdded};

use crate::gates;
use answers::Answer;

// c = a·x, a of rows by inner, x of inner numbers and c of rows numbers.
pub fn mult_rowvector(rows: usize, inner: usize, a: &[f32], x: &[f32], c: &mut [f32]) -> Answer
    ensures { RowMultiplied binary32 rows inner a.now x.now c.old result c.new }
{
    gates::row(rows, inner, a.len(), x.len(), c.len())?;
    times_vector::rowvector_cells(rows, inner, &*a, &*x, c);
    Ok(())
}

// c = c + a·x.
pub fn multadd_rowvector(rows: usize, inner: usize, a: &[f32], x: &[f32], c: &mut [f32]) -> Answer
    ensures { RowAdded binary32 rows inner a.now x.now c.old result c.new }
{
    gates::row(rows, inner, a.len(), x.len(), c.len())?;
    times_vector::rowvector_add_cells(rows, inner, &*a, &*x, c);
    Ok(())
}
