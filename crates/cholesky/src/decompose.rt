// The decomposition, for any caller.
ghost use Rattle.std.specs.Float.{binary32};
ghost use Rattle.factors.specs.Decomposed.{Decomposed};

use crate::cores;
use answers::{Answer, Refusal};
use row_major::gates;

// t, an n by n matrix of which the diagonal and what lies above it are read, becomes its lower factor;
// or the first pivot that is not above zero, or not finite, NaN included, is named.
pub fn cholesky_decompose_lower(n: usize, t: &mut [f32]) -> Answer
    ensures { Decomposed binary32 n t.old result t.new }
{
    gates::square(n, t.len())?;
    let i = cores::decompose_cells(n, t);
    if i < n {
        return Err(Refusal::Pivot(i));
    }
    Ok(())
}
