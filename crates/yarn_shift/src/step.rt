// A step of the shift: the prediction, and the correction by a reading where one arrives.
ghost use Rattle.std.specs.Prelude.{◌≡◌};
ghost use Rattle.yarn_shift.specs.Step.{at_start, advanced};

use one_state::{Corrected, OneState};
use wire::{Measured, Outcome, Reading};

// A step: what became of the reading, and the yarn after it.
#[derive(Clone, Copy)]
pub struct Step {
    pub outcome: Outcome,
    pub after: OneState,
}

// Where the shift starts: the tension that the feeder was set to, and no correction refused yet.
pub fn start() -> OneState
    ensures { result ≡ at_start }
{
    OneState::new(35.0, 9.0, 1.0, 0.5, 1.0, 4.0)
}

// The step from the yarn s with what the wire brings: the reading's noise becomes r.
pub fn advance(s: OneState, g: Reading) -> Step
    ensures { result ≡ advanced s g }
{
    let predicted = s.predict();
    match g {
        None => Step {
            outcome: None,
            after: predicted,
        },
        Some(Measured { z, r }) => {
            let mut heard = predicted;
            heard.r = r;
            match heard.correct(z) {
                Corrected::Accepted(after) => Step {
                    outcome: Some(Ok(())),
                    after,
                },
                Corrected::Refused(after, why) => Step {
                    outcome: Some(why),
                    after,
                },
            }
        }
    }
}
