// Sums and differences of matrices that lent buffers hold, entry by entry. Each tests its buffers in the
// order of its own arguments, so that a refusal names the right one.
#![tactic(auto)]

ghost use Rattle.std.specs.Float.{binary32};
ghost use Rattle.std.specs.Float.Ieee.{add, sub};
ghost use Rattle.grids.specs.Sums.{Combined, InPlace};

use answers::Answer;
use cells::gates;

pub mod cores;

// a − b in c, all of rows by cols.
pub fn sub(rows: usize, cols: usize, a: &[f32], b: &[f32], c: &mut [f32]) -> Answer
    ensures { Combined (sub binary32) rows cols a.now b.now c.old result c.new }
{
    let operands = gates::pair(rows, cols, a.len(), b.len());
    answers::then_matrix(operands, 2, rows, cols, c.len())?;
    cores::sub_cells(rows * cols, &*a, &*b, c);
    Ok(())
}

// a − b in a.
pub fn sub_inplace_a(rows: usize, cols: usize, a: &mut [f32], b: &[f32]) -> Answer
    ensures { InPlace (sub binary32) rows cols a.old b.now a.old result a.new }
{
    gates::pair(rows, cols, a.len(), b.len())?;
    cores::sub_cells_a(rows * cols, a, &*b);
    Ok(())
}

// a − b, and not b − a, in b.
pub fn sub_inplace_b(rows: usize, cols: usize, a: &[f32], b: &mut [f32]) -> Answer
    ensures { InPlace (sub binary32) rows cols a.now b.old b.old result b.new }
{
    gates::pair(rows, cols, a.len(), b.len())?;
    cores::sub_cells_b(rows * cols, &*a, b);
    Ok(())
}

// a + b in a.
pub fn add_inplace_a(rows: usize, cols: usize, a: &mut [f32], b: &[f32]) -> Answer
    ensures { InPlace (add binary32) rows cols a.old b.now a.old result a.new }
{
    gates::pair(rows, cols, a.len(), b.len())?;
    cores::add_cells_a(rows * cols, a, &*b);
    Ok(())
}

// a + b in b: b + a in b, which is the same.
pub fn add_inplace_b(rows: usize, cols: usize, a: &[f32], b: &mut [f32]) -> Answer
    ensures { InPlace (add binary32) rows cols a.now b.old b.old result b.new }
{
    gates::pair(rows, cols, a.len(), b.len())?;
    cores::add_cells_a(rows * cols, b, &*a);
    Ok(())
}
