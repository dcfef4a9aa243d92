// Fills: a number in every cell, on the diagonal, or off it.
ghost use Rattle.numbers.specs.Reciprocal.{one};
ghost use Rattle.numbers.specs.Sums.{plus0};
ghost use Rattle.grids.specs.Cells.{Filled, DiagonalSet, Comatrix};

use answers::Answer;
use cells::{cores, gates};

// x in every cell of the rows by cols matrix.
pub fn set_all(rows: usize, cols: usize, m: &mut [f32], x: f32) -> Answer
    ensures { Filled rows cols m.old x result m.new }
{
    gates::matrix(rows, cols, m.len())?;
    cores::fill_cells(rows * cols, m, x);
    Ok(())
}

// +0 in every cell of the rows by cols matrix.
pub fn clear(rows: usize, cols: usize, m: &mut [f32]) -> Answer
    ensures { Filled rows cols m.old plus0 result m.new }
{
    set_all(rows, cols, m, 0.0)
}

// The same under the original's second name.
pub fn set_zero(rows: usize, cols: usize, m: &mut [f32]) -> Answer
    ensures { Filled rows cols m.old plus0 result m.new }
{
    set_all(rows, cols, m, 0.0)
}

// value on the diagonal of the n by n matrix; every other entry stays.
pub fn set_diagonal_to_scalar(n: usize, m: &mut [f32], value: f32) -> Answer
    ensures { DiagonalSet n m.old value result m.new }
{
    gates::square(n, m.len())?;
    cores::fill_diagonal(n, m, value);
    Ok(())
}

// diagonal on the diagonal of the n by n matrix and off_diagonal in every other cell.
pub fn make_comatrix(n: usize, m: &mut [f32], diagonal: f32, off_diagonal: f32) -> Answer
    ensures { Comatrix n m.old diagonal off_diagonal result m.new }
{
    gates::square(n, m.len())?;
    cores::fill_cells(n * n, m, off_diagonal);
    cores::fill_diagonal(n, m, diagonal);
    Ok(())
}

// diagonal on the diagonal of the n by n matrix and +0 in every other cell.
pub fn make_scalar(n: usize, m: &mut [f32], diagonal: f32) -> Answer
    ensures { Comatrix n m.old diagonal plus0 result m.new }
{
    make_comatrix(n, m, diagonal, 0.0)
}

// 1 on the diagonal of the n by n matrix and +0 in every other cell.
pub fn make_identity(n: usize, m: &mut [f32]) -> Answer
    ensures { Comatrix n m.old one plus0 result m.new }
{
    make_comatrix(n, m, 1.0, 0.0)
}
