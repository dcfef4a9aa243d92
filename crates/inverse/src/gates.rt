// Refusals 1 and 2 for two square matrices.
ghost use Rattle.std.specs.Prelude.{◌≡◌};
ghost use Rattle.factors.specs.Inverted.{squares_answer};

use answers::Answer;

// The answer for two n by n matrices in buffers of la and lb numbers.
pub fn squares(n: usize, la: usize, lb: usize) -> Answer
    ensures { result ≡ squares_answer n la lb }
{
    let first = answers::then_matrix(answers::then_size(Ok(()), 0, n), 0, n, n, la);
    answers::then_matrix(first, 1, n, n, lb)
}
