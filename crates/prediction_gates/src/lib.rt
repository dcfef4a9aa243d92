// Refusals 1 and 2 of the predictions, buffers in the order of R5; for the crate above.
#![tactic(auto)]

ghost use Rattle.std.specs.Prelude.{◌≡◌};
ghost use Rattle.filters.specs.Predicted.{predict_x_answer, predict_p_answer, predict_answer};

use answers::Answer;

// The answer for n states and the lengths of x, A and predicted_x.
pub fn of_x(n: usize, x: usize, a: usize, predicted: usize) -> Answer
    ensures { result ≡ predict_x_answer n x a predicted }
{
    let states = answers::then_size(Ok(()), 0, n);
    let before_a = answers::then_buffer(states, 0, n, x);
    let before_px = answers::then_matrix(before_a, 1, n, n, a);
    answers::then_buffer(before_px, 2, n, predicted)
}

// The answer for n states and the lengths of A, P, Q and temp_P.
pub fn of_p(n: usize, a: usize, p: usize, q: usize, temp: usize) -> Answer
    ensures { result ≡ predict_p_answer n a p q temp }
{
    let states = answers::then_size(Ok(()), 0, n);
    let before_p = answers::then_matrix(states, 0, n, n, a);
    let before_q = answers::then_matrix(before_p, 1, n, n, p);
    let before_temp = answers::then_matrix(before_q, 2, n, n, q);
    answers::then_matrix(before_temp, 3, n, n, temp)
}

// The answer for n states and the lengths of x, A, P, Q, predicted_x and temp_P.
pub fn of_both(
    n: usize,
    x: usize,
    a: usize,
    p: usize,
    q: usize,
    predicted: usize,
    temp: usize,
) -> Answer
    ensures { result ≡ predict_answer n x a p q predicted temp }
{
    let states = answers::then_size(Ok(()), 0, n);
    let before_a = answers::then_buffer(states, 0, n, x);
    let before_p = answers::then_matrix(before_a, 1, n, n, a);
    let before_q = answers::then_matrix(before_p, 2, n, n, p);
    let before_px = answers::then_matrix(before_q, 3, n, n, q);
    let before_temp = answers::then_buffer(before_px, 4, n, predicted);
    answers::then_matrix(before_temp, 5, n, n, temp)
}
