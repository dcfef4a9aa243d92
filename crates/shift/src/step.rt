// A step of the shift: the prediction, and the correction by a reading where one arrives.
ghost use Rattle.shift.specs.Step.{Advanced};

use feeder::{Feeder, correct, predict};
use wire::{Measured, Outcome, Reading};

// A step of the shift: the feeder as predicted, what became of the reading, and the feeder after it.
#[derive(Clone, Copy)]
pub struct Step {
    pub predicted: Feeder,
    pub outcome: Outcome,
    pub after: Feeder,
}

// The step from the feeder f with what the wire brings. A reading that is refused leaves the feeder as
// predicted.
pub fn advance(f: Feeder, g: Reading) -> Step
    ensures { Advanced f g result }
{
    let predicted = predict(f);
    match g {
        None => Step {
            predicted,
            outcome: None,
            after: predicted,
        },
        Some(Measured { z, r }) => {
            let c = correct(predicted, z, r);
            let answer = c.answer;
            let after = c.after;
            Step {
                predicted,
                outcome: Some(answer),
                after,
            }
        }
    }
}
