// Refusals 1 and 2 of the products.
ghost use Rattle.std.specs.Prelude.{◌≡◌};
ghost use Rattle.entries.specs.Answers.{product_answer, row_answer};

use answers::Answer;

// The answer for a of rows by inner, b of inner by cols, or of cols by inner, which is as many
// numbers, and c of rows by cols.
pub fn product(rows: usize, inner: usize, cols: usize, la: usize, lb: usize, lc: usize) -> Answer
    ensures { result ≡ product_answer rows inner cols la lb lc }
{
    let rows_taken = answers::then_size(Ok(()), 0, rows);
    let inner_taken = answers::then_size(rows_taken, 1, inner);
    let sizes = answers::then_size(inner_taken, 2, cols);
    let left = answers::then_matrix(sizes, 0, rows, inner, la);
    let right = answers::then_matrix(left, 1, inner, cols, lb);
    answers::then_matrix(right, 2, rows, cols, lc)
}

// The answer for a of rows by inner, x of inner numbers and c of rows numbers.
pub fn row(rows: usize, inner: usize, la: usize, lx: usize, lc: usize) -> Answer
    ensures { result ≡ row_answer rows inner la lx lc }
{
    let rows_taken = answers::then_size(Ok(()), 0, rows);
    let sizes = answers::then_size(rows_taken, 1, inner);
    let left = answers::then_matrix(sizes, 0, rows, inner, la);
    answers::then_buffer(answers::then_buffer(left, 1, inner, lx), 2, rows, lc)
}
