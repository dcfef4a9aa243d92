// Up to twelve feeders, each a record of one state, in one call (R33): a row of records is lent, and each
// is predicted, or corrected by the reading of its own index, in place, from the first to the last.
//
// Both functions are thin loops: all that they decide is by value, in `rows`.
#![tactic(auto)]

ghost use Rattle.rows.specs.Rows.{PredictedRow, CorrectedRow};

use answers::Answer;
use one_state::OneState;
use rows::Corrections;

// Every record as its model moves it. More than twelve records are refused with 1, and stay.
pub fn predict(feeders: &mut [OneState]) -> Answer
    ensures { PredictedRow feeders.old result feeders.new }
{
    let n = rows::to_predict(feeders.len());
    for feeder in feeders[..n].iter_mut() {
        *feeder = rows::moved(*feeder);
    }
    rows::row_answer(feeders.len())
}

// Every record by the reading of its own index; how many were accepted, and which was the first that
// was not. One that is refused has its floats as they were and its count one up, and the rest go on.
// More than twelve records are refused with 1, fewer readings than records with 2, and all stay;
// readings past the last record are not looked at.
pub fn correct(feeders: &mut [OneState], readings: &[f32]) -> Corrections
    ensures { CorrectedRow feeders.old readings.now result feeders.new }
{
    let n = rows::to_correct(feeders.len(), readings.len());
    let mut tally = rows::none_yet();
    for (i, feeder) in feeders[..n].iter_mut().enumerate() {
        let turn = rows::take_turn(*feeder, readings, i, tally);
        feeder.x = turn.x;
        feeder.p = turn.p;
        feeder.blind = turn.blind;
        tally = turn.tally;
    }
    rows::told(feeders.len(), readings.len(), tally)
}
