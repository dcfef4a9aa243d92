// The inverse, for any caller.
ghost use Rattle.std.specs.Float.{binary32};
ghost use Rattle.factors.specs.Inverted.{Inverted};

use crate::{cores, gates};
use answers::Answer;

// inv becomes the inverse of the n by n matrix whose lower factor is l, of which the diagonal and what
// lies below it are read.
pub fn invert_l_cholesky(n: usize, l: &[f32], inv: &mut [f32]) -> Answer
    ensures { Inverted binary32 n l.now inv.old result inv.new }
{
    gates::squares(n, l.len(), inv.len())?;
    cores::invert_cells(n, &*l, inv);
    Ok(())
}
