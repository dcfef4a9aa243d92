// The predictions: of x, of P, and of both. Three promises, each its gate and one call.
ghost use Rattle.std.specs.Float.{binary32};
ghost use Rattle.filters.specs.Predicted.{PredictedX, PredictedP, Predicted};

use answers::Answer;

// x becomes A·x, which predicted_x holds too.
pub fn predict_x(n: usize, x: &mut [f32], a: &[f32], predicted: &mut [f32]) -> Answer
    ensures { PredictedX binary32 n x.old a.now predicted.old result x.new predicted.new }
{
    prediction_gates::of_x(n, x.len(), a.len(), predicted.len())?;
    predictions::predict_x_cells(n, x, &*a, predicted);
    Ok(())
}

// P becomes A·P·Aᵀ + Q; temp_P holds A·P.
pub fn predict_p(n: usize, a: &[f32], p: &mut [f32], q: &[f32], temp: &mut [f32]) -> Answer
    ensures { PredictedP binary32 n a.now p.old q.now temp.old result p.new temp.new }
{
    prediction_gates::of_p(n, a.len(), p.len(), q.len(), temp.len())?;
    predictions::predict_p_cells(n, &*a, p, &*q, temp);
    Ok(())
}

// Both: x becomes A·x and P becomes A·P·Aᵀ + Q.
pub fn predict(
    n: usize,
    x: &mut [f32],
    a: &[f32],
    p: &mut [f32],
    q: &[f32],
    predicted: &mut [f32],
    temp: &mut [f32],
) -> Answer
    ensures { Predicted binary32 n x.old a.now p.old q.now predicted.old temp.old result x.new p.new predicted.new temp.new }
{
    prediction_gates::of_both(
        n,
        x.len(),
        a.len(),
        p.len(),
        q.len(),
        predicted.len(),
        temp.len(),
    )?;
    prediction_cells::predict_cells(n, x, &*a, p, &*q, predicted, temp);
    Ok(())
}
