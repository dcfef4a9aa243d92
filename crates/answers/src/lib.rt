// What a call says, and the tests behind refusals 1 to 3.
//
// A function of the layers above asks its tests in the order of R4: then_size for each size,
// then_buffer or then_matrix for each buffer, then_place for the row and the column. Each hands an
// earlier refusal on, so the first one stays.
#![tactic(auto)]

ghost use Rattle.std.specs.Prelude.{◌≡◌, ◌*◌, ltb, get_or};
ghost use Rattle.answers.specs.Answers.{number_of, carried_by, is_done, first_of};
ghost use Rattle.answers.specs.Tests.{size_taken, size_test, buffer_test, place_test};

// Why a call was refused (R3).
#[derive(Clone, Copy)]
pub enum Refusal {
    // Refusal 1: the size of this index is 0 or above 16.
    Size(usize),
    // Refusal 2: the buffer of this index is shorter than its matrix.
    Short(usize),
    // Refusal 3: the row (0) or the column (1) is not below its size.
    Range(usize),
    // Refusal 4: the pivot of this index is not above zero, or not finite, NaN included.
    Pivot(usize),
    // Refusal 5: of a card, the line of this number is missing, misplaced, malformed or surplus.
    Line(usize),
    // Refusal 6: a card's edition is a number other than 1.
    Edition,
    // Refusal 9: some entry of the new x or P is not finite.
    NotFinite,
}

// What a call says: it did its work, or why not.
pub type Answer = Result<(), Refusal>;

// The number of the refusal (R3), 0 for done.
pub fn number_of(v: Answer) -> usize
    ensures { result ≡ number_of v }
{
    match v {
        Ok(()) => 0,
        Err(Refusal::Size(_)) => 1,
        Err(Refusal::Short(_)) => 2,
        Err(Refusal::Range(_)) => 3,
        Err(Refusal::Pivot(_)) => 4,
        Err(Refusal::Line(_)) => 5,
        Err(Refusal::Edition) => 6,
        Err(Refusal::NotFinite) => 9,
    }
}

// Which size, buffer, row or column, pivot, or line it is; 0 where the answer carries nothing.
pub fn carried_by(v: Answer) -> usize
    ensures { result ≡ get_or (carried_by v) 0 0 }
{
    match v {
        Ok(()) => 0,
        Err(Refusal::Size(k)) => k,
        Err(Refusal::Short(k)) => k,
        Err(Refusal::Range(k)) => k,
        Err(Refusal::Pivot(k)) => k,
        Err(Refusal::Line(k)) => k,
        Err(Refusal::Edition) => 0,
        Err(Refusal::NotFinite) => 0,
    }
}

// Whether the call did its work.
pub fn is_done(v: Answer) -> bool
    ensures { result ≡ is_done v }
{
    v.is_ok()
}

// The answer so far, or refusal 1 where it is done and the k-th size n is not 1 to 16.
pub fn then_size(v: Answer, k: usize, n: usize) -> Answer
    ensures { result ≡ first_of v (size_test k n) }
{
    v?;
    if !size_taken(n) {
        return Err(Refusal::Size(k));
    }
    Ok(())
}

// The answer so far, or refusal 2 where it is done and the k-th buffer, of len numbers, has fewer
// than its matrix has cells.
pub fn then_buffer(v: Answer, k: usize, cells: usize, len: usize) -> Answer
    ensures { result ≡ first_of v (buffer_test k cells len) }
{
    v?;
    if len < cells {
        return Err(Refusal::Short(k));
    }
    Ok(())
}

// The same for a matrix of rows by cols.
pub fn then_matrix(v: Answer, k: usize, rows: usize, cols: usize, len: usize) -> Answer
    ensures { result ≡ first_of v (buffer_test k (rows * cols) len) }
{
    v?;
    if is_shorter(len, rows, cols) {
        return Err(Refusal::Short(k));
    }
    Ok(())
}

// The answer so far, or refusal 3 where it is done and i is not below n: k is 0 for a row and 1 for
// a column.
pub fn then_place(v: Answer, k: usize, i: usize, n: usize) -> Answer
    ensures { result ≡ first_of v (place_test k i n) }
{
    v?;
    if i >= n {
        return Err(Refusal::Range(k));
    }
    Ok(())
}

// Whether n is 1 to 16.
fn size_taken(n: usize) -> bool
    ensures { result ≡ size_taken n }
{
    1 <= n && n <= 16
}

// Whether len is below rows·cols. The product is formed only where both are at most 16; past that
// the test goes by a quotient, so that any two numbers may arrive.
fn is_shorter(len: usize, rows: usize, cols: usize) -> bool
    ensures { result ≡ ltb len (rows * cols) }
{
    if rows <= 16 && cols <= 16 {
        return len < rows * cols;
    }
    if cols == 0 {
        return false;
    }
    len / cols < rows
}
