// What the calls over a row of feeders decide, by value (R33): which rows are taken, what becomes of one
// feeder, and what the call says. For `feeders`, which has the loops over a lent row; of a user's
// concern is `Corrections`.
#![tactic(auto)]

ghost use Rattle.std.specs.Prelude.{◌≡◌, ◌+◌, ◌^◌, ◌<◌, ◌≤◌, length};
ghost use Rattle.answers.specs.Answers.{settled};
ghost use Rattle.one_state.specs.OneState.{predicted};
ghost use Rattle.rows.specs.Rows.{row_answer, readings_answer, told_of, none_yet, tallied, Turned};

use answers::{Answer, Refusal};
use one_state::{Corrected, OneState};

// What the correction of a row says.
#[derive(Clone, Copy)]
pub enum Corrections {
    // Every feeder was accepted, and how many they are.
    All(usize),
    // How many were accepted, and the index of the first that was refused.
    Part(usize, usize),
    // Refused with 1 or 2: no feeder was corrected.
    Refused(Answer),
}

// Of the feeders that were corrected so far: how many were accepted, and the index of the first that
// was refused, or how many they are where none was.
#[derive(Clone, Copy)]
pub struct Tally {
    pub accepted: usize,
    pub first: usize,
}

// What became of one feeder: its x, p and count, which are all that a correction changes, and the tally
// with it in.
#[derive(Clone, Copy)]
pub struct Turn {
    pub x: f32,
    pub p: f32,
    pub blind: u8,
    pub tally: Tally,
}

// Refusal 1, of size 0, where a row has more than twelve records.
pub fn row_answer(n: usize) -> Answer
    ensures { result ≡ row_answer n }
{
    if n <= 12 {
        Ok(())
    } else {
        Err(Refusal::Size(0))
    }
}

// The same of a row of n records, and then refusal 2, of buffer 1, where the m readings are fewer.
pub fn readings_answer(n: usize, m: usize) -> Answer
    ensures { result ≡ readings_answer n m }
{
    answers::then_buffer(row_answer(n), 1, n, m)
}

// How many of n records a call works on: all of them, and none where it is refused.
fn worked_on(v: Answer, n: usize) -> usize
    ensures { result ≡ settled v n 0 }
{
    if answers::is_done(v) { n } else { 0 }
}

// How many of n records are predicted.
pub fn to_predict(n: usize) -> usize
    ensures { result ≡ settled (row_answer n) n 0 }
{
    worked_on(row_answer(n), n)
}

// How many of n records are corrected, where there are m readings.
pub fn to_correct(n: usize, m: usize) -> usize
    ensures { result ≡ settled (readings_answer n m) n 0 }
{
    worked_on(readings_answer(n, m), n)
}

// What becomes of the record s where all are predicted.
pub fn moved(s: OneState) -> OneState
    ensures { result ≡ predicted s }
{
    s.predict()
}

// The tally of no feeders.
pub fn none_yet() -> Tally
    ensures { result ≡ none_yet }
{
    Tally {
        accepted: 0,
        first: 0,
    }
}

// The tally t of i feeders with one more, which was accepted or not.
fn tallied(accepted: bool, i: usize, t: Tally) -> Tally
    requires { (i + 1 < 2 ^ 64) × (t.accepted ≤ i) }
    ensures { result ≡ tallied accepted i t }
{
    if !accepted {
        return t;
    }
    Tally {
        accepted: t.accepted + 1,
        first: if t.first == i { i + 1 } else { t.first },
    }
}

// What becomes of the i-th record s by the i-th reading, where t is the tally of those before it.
pub fn take_turn(s: OneState, readings: &[f32], i: usize, t: Tally) -> Turn
    requires { (i < length readings.now) × (t.accepted ≤ i) }
    ensures { Turned s readings.now i t result.x result.p result.blind result.tally }
{
    match s.correct(readings[i]) {
        Corrected::Accepted(renewed) => Turn {
            x: renewed.x,
            p: renewed.p,
            blind: renewed.blind,
            tally: tallied(true, i, t),
        },
        Corrected::Refused(blinded, _) => Turn {
            x: blinded.x,
            p: blinded.p,
            blind: blinded.blind,
            tally: tallied(false, i, t),
        },
    }
}

// What the call says of n records and m readings, once all that are to be are corrected.
pub fn told(n: usize, m: usize, t: Tally) -> Corrections
    ensures { result ≡ told_of n m t.accepted t.first }
{
    let v = readings_answer(n, m);
    if answers::is_done(v) {
        if t.first < n {
            Corrections::Part(t.accepted, t.first)
        } else {
            Corrections::All(n)
        }
    } else {
        Corrections::Refused(v)
    }
}
