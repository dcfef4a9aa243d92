// The filter of one yarn, for C and Rust programs: the record itself, behind a pointer.
#![tactic(auto)]

ghost use Rattle.std.specs.Prelude.{◌≡◌};
ghost use Rattle.one_state.specs.OneState.{predicted};
ghost use Rattle.c_codes.specs.Code.{Told};
ghost use Rattle.c_yarn.specs.Yarn.{CorrectedYarn, Tried};

use one_state::{Corrected, OneState};

// The record with x and p as the model moves them.
#[unsafe(no_mangle)]
pub extern "C" fn yurgamysh_one_state_predict(yarn: &mut OneState)
    ensures { yarn.new ≡ predicted yarn.old }
{
    *yarn = yarn.predict();
}

// The record with x and p as the reading z moves them, and a count of 0; or the reading's spread S is
// not above zero, or not finite, NaN included, or the new x or p is not finite, and the count alone is
// written, one up.
#[unsafe(no_mangle)]
pub extern "C" fn yurgamysh_one_state_correct(yarn: &mut OneState, z: f32) -> usize
    ensures { Told (λ v. CorrectedYarn yarn.old z v yarn.new) result }
{
    let t = tried(*yarn, z);
    if t.code == 0 {
        *yarn = t.after;
    } else {
        yarn.blind = t.after.blind;
    }
    t.code
}

// What became of a correction: its code, and the record after it.
#[derive(Clone, Copy)]
struct Trial {
    code: usize,
    after: OneState,
}

// The correction of s by the reading z, by value.
fn tried(s: OneState, z: f32) -> Trial
    ensures { Tried s z result.code result.after }
{
    match s.correct(z) {
        Corrected::Accepted(renewed) => Trial {
            code: c_codes::code_of(Ok(())),
            after: renewed,
        },
        Corrected::Refused(blinded, why) => Trial {
            code: c_codes::code_of(why),
            after: blinded,
        },
    }
}
