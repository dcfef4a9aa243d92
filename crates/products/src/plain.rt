// a·b, with and without an auxiliary buffer.
ghost use Rattle.std.specs.Float.{binary32};
ghost use Rattle.entries.specs.Products.{Multiplied, Buffered};

use crate::gates;
use answers::Answer;

// c = a·b, a of rows by inner and b of inner by cols.
pub fn mult(rows: usize, inner: usize, cols: usize, a: &[f32], b: &[f32], c: &mut [f32]) -> Answer
    ensures { Multiplied binary32 rows inner cols a.now b.now c.old result c.new }
{
    gates::product(rows, inner, cols, a.len(), b.len(), c.len())?;
    times_matrix::mult_cells(rows, inner, cols, &*a, &*b, c);
    Ok(())
}

// c = a·b, and aux ends with column 0 of b.
pub fn mult_buffered(
    rows: usize,
    inner: usize,
    cols: usize,
    a: &[f32],
    b: &[f32],
    c: &mut [f32],
    aux: &mut [f32],
) -> Answer
    ensures { Buffered binary32 rows inner cols a.now b.now c.old aux.old result c.new aux.new }
{
    let matrices = gates::product(rows, inner, cols, a.len(), b.len(), c.len());
    answers::then_buffer(matrices, 3, inner, aux.len())?;
    times_matrix::mult_cells(rows, inner, cols, &*a, &*b, c);
    cells::cores::copy_column(inner, cols, &*b, 0, aux);
    Ok(())
}
