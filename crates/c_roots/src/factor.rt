// The decomposition of a matrix, and the inverse from its factor.
ghost use Rattle.std.specs.Float.{binary32};
ghost use Rattle.factors.specs.Decomposed.{Decomposed};
ghost use Rattle.factors.specs.Inverted.{Inverted};
ghost use Rattle.c_codes.specs.Code.{Told};

// t, of which the diagonal and what lies above it are read, becomes its lower factor; or the first
// pivot that is not above zero, or not finite, NaN included, is named.
#[unsafe(no_mangle)]
pub extern "C" fn yurgamysh_cholesky_decompose_lower(n: usize, t: &mut [f32]) -> usize
    ensures { Told (λ v. Decomposed binary32 n t.old v t.new) result }
{
    c_codes::code_of(cholesky::cholesky_decompose_lower(n, t))
}

// inv becomes the inverse of the n by n matrix whose lower factor is l.
#[unsafe(no_mangle)]
pub extern "C" fn yurgamysh_invert_l_cholesky(n: usize, l: &[f32], inv: &mut [f32]) -> usize
    ensures { Told (λ v. Inverted binary32 n l.now inv.old v inv.new) result }
{
    c_codes::code_of(inverse::invert_l_cholesky(n, &*l, inv))
}
