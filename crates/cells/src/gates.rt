// Refusals 1 to 3 of the cell functions, for the crates above: sizes, then buffers, then the row and
// the column.
ghost use Rattle.std.specs.Prelude.{◌≡◌};
ghost use Rattle.grids.specs.Cells.{matrix_answer, pair_answer, square_answer, cell_answer};

use answers::Answer;

// The answer for a rows by cols matrix in a buffer of len numbers.
pub fn matrix(rows: usize, cols: usize, len: usize) -> Answer
    ensures { result ≡ matrix_answer rows cols len }
{
    let sizes = answers::then_size(answers::then_size(Ok(()), 0, rows), 1, cols);
    answers::then_matrix(sizes, 0, rows, cols, len)
}

// The answer for two rows by cols matrices, in buffers of la and lb numbers.
pub fn pair(rows: usize, cols: usize, la: usize, lb: usize) -> Answer
    ensures { result ≡ pair_answer rows cols la lb }
{
    answers::then_matrix(matrix(rows, cols, la), 1, rows, cols, lb)
}

// The answer for an n by n matrix.
pub fn square(n: usize, len: usize) -> Answer
    ensures { result ≡ square_answer n len }
{
    answers::then_matrix(answers::then_size(Ok(()), 0, n), 0, n, n, len)
}

// The answer for the cell (row, column) of a rows by cols matrix.
pub fn cell(rows: usize, cols: usize, len: usize, row: usize, column: usize) -> Answer
    ensures { result ≡ cell_answer rows cols len row column }
{
    let held = matrix(rows, cols, len);
    answers::then_place(answers::then_place(held, 0, row, rows), 1, column, cols)
}
