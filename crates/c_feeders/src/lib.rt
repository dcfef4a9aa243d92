// A row of feeders, for C and Rust programs: the records themselves, as many as lie behind a pointer.
#![tactic(auto)]

ghost use Rattle.std.specs.Prelude.{◌≡◌};
ghost use Rattle.rows.specs.Rows.{PredictedRow};
ghost use Rattle.c_codes.specs.Code.{Told};
ghost use Rattle.c_feeders.specs.Row.{CorrectedInto, Said};

use one_state::OneState;
use rows::Corrections;

// How many feeders were accepted, and the index of the first that was refused, or how many there are
// where none was.
#[repr(C)]
#[derive(Clone, Copy)]
pub struct Counts {
    pub accepted: usize,
    pub first_refused: usize,
}

// Every record as its model moves it; or there are more than twelve, and all stay.
#[unsafe(no_mangle)]
pub extern "C" fn yurgamysh_feeders_predict(feeders: &mut [OneState]) -> usize
    ensures { Told (λ v. PredictedRow feeders.old v feeders.new) result }
{
    c_codes::code_of(feeders::predict(feeders))
}

// Every record by the reading of its own index, and in counts what became of them; or there are more
// than twelve records, or fewer readings than records, and nothing is written.
#[unsafe(no_mangle)]
pub extern "C" fn yurgamysh_feeders_correct(
    feeders: &mut [OneState],
    readings: &[f32],
    counts: &mut Counts,
) -> usize
    ensures { CorrectedInto feeders.old readings.now counts.old result feeders.new counts.new }
{
    let n = feeders.len();
    let s = said(feeders::correct(feeders, readings), n);
    if s.code == 0 {
        *counts = s.counts;
    }
    s.code
}

// What the call says in numbers: its code, and the counts that go with the code 0.
#[derive(Clone, Copy)]
struct Spelt {
    code: usize,
    counts: Counts,
}

// What the correction of n records says, in numbers.
fn said(c: Corrections, n: usize) -> Spelt
    ensures { Said c n result.code result.counts }
{
    match c {
        Corrections::All(k) => Spelt {
            code: 0,
            counts: Counts {
                accepted: k,
                first_refused: n,
            },
        },
        Corrections::Part(k, i) => Spelt {
            code: 0,
            counts: Counts {
                accepted: k,
                first_refused: i,
            },
        },
        Corrections::Refused(why) => Spelt {
            code: c_codes::code_of(why),
            counts: Counts {
                accepted: 0,
                first_refused: n,
            },
        },
    }
}
