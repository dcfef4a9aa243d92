// The filter's prediction, for C and Rust programs.
//
// A slice arrives as a pointer and a length. Each function hands on to a public function of the crates
// below, says its answer as a code, and keeps that function's promise.
#![tactic(auto)]

ghost use Rattle.std.specs.Float.{binary32};
ghost use Rattle.filters.specs.Predicted.{PredictedX, PredictedP, Predicted};
ghost use Rattle.c_codes.specs.Code.{Told};

// x becomes A·x and P becomes A·P·Aᵀ + Q.
#[unsafe(no_mangle)]
pub extern "C" fn yurgamysh_predict(
    n: usize,
    x: &mut [f32],
    a: &[f32],
    p: &mut [f32],
    q: &[f32],
    predicted: &mut [f32],
    temp: &mut [f32],
) -> usize
    ensures { Told (λ v. Predicted binary32 n x.old a.now p.old q.now predicted.old temp.old v x.new p.new predicted.new temp.new) result }
{
    c_codes::code_of(kalman::predict(n, x, &*a, p, &*q, predicted, temp))
}

// x becomes A·x, which predicted_x holds too.
#[unsafe(no_mangle)]
pub extern "C" fn yurgamysh_predict_x(
    n: usize,
    x: &mut [f32],
    a: &[f32],
    predicted: &mut [f32],
) -> usize
    ensures { Told (λ v. PredictedX binary32 n x.old a.now predicted.old v x.new predicted.new) result }
{
    c_codes::code_of(kalman::predict_x(n, x, &*a, predicted))
}

// P becomes A·P·Aᵀ + Q; temp_P holds A·P.
#[unsafe(no_mangle)]
pub extern "C" fn yurgamysh_predict_p(
    n: usize,
    a: &[f32],
    p: &mut [f32],
    q: &[f32],
    temp: &mut [f32],
) -> usize
    ensures { Told (λ v. PredictedP binary32 n a.now p.old q.now temp.old v p.new temp.new) result }
{
    c_codes::code_of(kalman::predict_p(n, &*a, p, &*q, temp))
}
