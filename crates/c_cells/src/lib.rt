// The cells of a matrix, for C and Rust programs: one read or written, copies, fills.
//
// A slice arrives as a pointer and a length. Each function hands on to a public function of
// `row_major`, says its answer as a code, and keeps that function's promise. Alike as they are, each is a
// name that C links.
#![tactic(auto)]

ghost use Rattle.numbers.specs.Reciprocal.{one};
ghost use Rattle.numbers.specs.Sums.{plus0};
ghost use Rattle.grids.specs.Cells.{Set, SetBoth, RowCopied, ColumnCopied, Copied, Filled, DiagonalSet, Comatrix};
ghost use Rattle.c_codes.specs.Code.{Told};
ghost use Rattle.c_cells.specs.Cell.{GotInto};

// The number in the cell (row, column) of the rows by cols matrix m in value, which a refused call
// leaves as lent.
#[unsafe(no_mangle)]
pub extern "C" fn yurgamysh_get(
    rows: usize,
    cols: usize,
    m: &[f32],
    row: usize,
    column: usize,
    value: &mut f32,
) -> usize
    ensures { Told (λ v. GotInto rows cols m.now row column value.old v value.new) result }
{
    match row_major::get(rows, cols, &*m, row, column) {
        Ok(x) => {
            *value = x;
            0
        }
        Err(why) => c_codes::code_of(Err(why)),
    }
}

// value in the cell (row, column) of the rows by cols matrix m.
#[unsafe(no_mangle)]
pub extern "C" fn yurgamysh_set(
    rows: usize,
    cols: usize,
    m: &mut [f32],
    row: usize,
    column: usize,
    value: f32,
) -> usize
    ensures { Told (λ v. Set rows cols m.old row column value v m.new) result }
{
    c_codes::code_of(row_major::set(rows, cols, m, row, column, value))
}

// value in the cells (row, column) and (column, row) of the n by n matrix m.
#[unsafe(no_mangle)]
pub extern "C" fn yurgamysh_set_symmetric(
    n: usize,
    m: &mut [f32],
    row: usize,
    column: usize,
    value: f32,
) -> usize
    ensures { Told (λ v. SetBoth n m.old row column value v m.new) result }
{
    c_codes::code_of(row_major::set_symmetric(n, m, row, column, value))
}

// A row of the rows by cols matrix m in the first cols cells of row_data.
#[unsafe(no_mangle)]
pub extern "C" fn yurgamysh_get_row_copy(
    rows: usize,
    cols: usize,
    m: &[f32],
    row: usize,
    row_data: &mut [f32],
) -> usize
    ensures { Told (λ v. RowCopied rows cols m.now row row_data.old v row_data.new) result }
{
    c_codes::code_of(row_major::get_row_copy(rows, cols, &*m, row, row_data))
}

// A column of the rows by cols matrix m in the first rows cells of column_data.
#[unsafe(no_mangle)]
pub extern "C" fn yurgamysh_get_column_copy(
    rows: usize,
    cols: usize,
    m: &[f32],
    column: usize,
    column_data: &mut [f32],
) -> usize
    ensures { Told (λ v. ColumnCopied rows cols m.now column column_data.old v column_data.new) result }
{
    c_codes::code_of(row_major::get_column_copy(rows, cols, &*m, column, column_data))
}

// The rows by cols matrix m in the first rows·cols cells of target.
#[unsafe(no_mangle)]
pub extern "C" fn yurgamysh_copy_to(
    rows: usize,
    cols: usize,
    m: &[f32],
    target: &mut [f32],
) -> usize
    ensures { Told (λ v. Copied rows cols m.now target.old v target.new) result }
{
    c_codes::code_of(row_major::copy_to(rows, cols, &*m, target))
}

// x in every cell of the rows by cols matrix.
#[unsafe(no_mangle)]
pub extern "C" fn yurgamysh_set_all(rows: usize, cols: usize, m: &mut [f32], x: f32) -> usize
    ensures { Told (λ v. Filled rows cols m.old x v m.new) result }
{
    c_codes::code_of(row_major::set_all(rows, cols, m, x))
}

// +0 in every cell of the rows by cols matrix.
#[unsafe(no_mangle)]
pub extern "C" fn yurgamysh_set_zero(rows: usize, cols: usize, m: &mut [f32]) -> usize
    ensures { Told (λ v. Filled rows cols m.old plus0 v m.new) result }
{
    c_codes::code_of(row_major::set_zero(rows, cols, m))
}

// value on the diagonal of the n by n matrix; every other entry stays.
#[unsafe(no_mangle)]
pub extern "C" fn yurgamysh_set_diagonal_to_scalar(n: usize, m: &mut [f32], value: f32) -> usize
    ensures { Told (λ v. DiagonalSet n m.old value v m.new) result }
{
    c_codes::code_of(row_major::set_diagonal_to_scalar(n, m, value))
}

// diagonal on the diagonal of the n by n matrix and +0 in every other cell.
#[unsafe(no_mangle)]
pub extern "C" fn yurgamysh_make_scalar(n: usize, m: &mut [f32], diagonal: f32) -> usize
    ensures { Told (λ v. Comatrix n m.old diagonal plus0 v m.new) result }
{
    c_codes::code_of(row_major::make_scalar(n, m, diagonal))
}

// 1 on the diagonal of the n by n matrix and +0 in every other cell.
#[unsafe(no_mangle)]
pub extern "C" fn yurgamysh_make_identity(n: usize, m: &mut [f32]) -> usize
    ensures { Told (λ v. Comatrix n m.old one plus0 v m.new) result }
{
    c_codes::code_of(row_major::make_identity(n, m))
}

// diagonal on the diagonal of the n by n matrix and off_diagonal in every other cell.
#[unsafe(no_mangle)]
pub extern "C" fn yurgamysh_make_comatrix(
    n: usize,
    m: &mut [f32],
    diagonal: f32,
    off_diagonal: f32,
) -> usize
    ensures { Told (λ v. Comatrix n m.old diagonal off_diagonal v m.new) result }
{
    c_codes::code_of(row_major::make_comatrix(n, m, diagonal, off_diagonal))
}
