// One cell: read, written, and written with its mirror image.
ghost use Rattle.row_major.specs.Get.{Got};
ghost use Rattle.grids.specs.Cells.{Set, SetBoth};

use answers::{Answer, Refusal};
use cells::gates;

// The number in the cell (row, column) of the rows by cols matrix m, or why it is refused.
pub fn get(rows: usize, cols: usize, m: &[f32], row: usize, column: usize) -> Result<f32, Refusal>
    ensures { Got rows cols m.now row column result }
{
    gates::cell(rows, cols, m.len(), row, column)?;
    Ok(m[row * cols + column])
}

// value in the cell (row, column) of the rows by cols matrix m.
pub fn set(rows: usize, cols: usize, m: &mut [f32], row: usize, column: usize, value: f32) -> Answer
    ensures { Set rows cols m.old row column value result m.new }
{
    gates::cell(rows, cols, m.len(), row, column)?;
    m[row * cols + column] = value;
    Ok(())
}

// value in the cells (row, column) and (column, row) of the n by n matrix m.
pub fn set_symmetric(n: usize, m: &mut [f32], row: usize, column: usize, value: f32) -> Answer
    ensures { SetBoth n m.old row column value result m.new }
{
    gates::cell(n, n, m.len(), row, column)?;
    m[row * n + column] = value;
    m[column * n + row] = value;
    Ok(())
}
