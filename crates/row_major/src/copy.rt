// Copies: a row, a column, a whole matrix.
ghost use Rattle.grids.specs.Cells.{RowCopied, ColumnCopied, Copied};

use answers::Answer;
use cells::{cores, gates};

// A row of the rows by cols matrix m in the first cols cells of row_data.
pub fn get_row_copy(rows: usize, cols: usize, m: &[f32], row: usize, row_data: &mut [f32]) -> Answer
    ensures { RowCopied rows cols m.now row row_data.old result row_data.new }
{
    let held = gates::matrix(rows, cols, m.len());
    let buffers = answers::then_buffer(held, 1, cols, row_data.len());
    answers::then_place(buffers, 0, row, rows)?;
    let at = row * cols;
    cores::copy_cells(cols, &m[at..], row_data);
    Ok(())
}

// A column of the rows by cols matrix m in the first rows cells of column_data.
pub fn get_column_copy(
    rows: usize,
    cols: usize,
    m: &[f32],
    column: usize,
    column_data: &mut [f32],
) -> Answer
    ensures { ColumnCopied rows cols m.now column column_data.old result column_data.new }
{
    let held = gates::matrix(rows, cols, m.len());
    let buffers = answers::then_buffer(held, 1, rows, column_data.len());
    answers::then_place(buffers, 1, column, cols)?;
    cores::copy_column(rows, cols, &*m, column, column_data);
    Ok(())
}

// The rows by cols matrix m in the first rows·cols cells of target.
pub fn copy_to(rows: usize, cols: usize, m: &[f32], target: &mut [f32]) -> Answer
    ensures { Copied rows cols m.now target.old result target.new }
{
    gates::pair(rows, cols, m.len(), target.len())?;
    cores::copy_cells(rows * cols, &*m, target);
    Ok(())
}
