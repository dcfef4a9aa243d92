// What the program writes. An error is one that a write gave.
ghost use Rattle.std.specs.Prelude.{◌≡◌};

use answers::{Answer, Refusal};
use figures::{gap, number, plain, right, text, whole};
use one_state::OneState;
use shift::{Step, Tally};
use std::io;
use wire::{Measured, Outcome, Reading};

// The tension that was read, or a dash.
fn reading(rt: &impl Print, g: Reading) -> io::Result<()> {
    match g {
        Some(Measured { z, .. }) => {
            if z.is_nan() {
                text(rt, b"     NaN")
            } else if z == f32::INFINITY {
                text(rt, b"     inf")
            } else {
                number(rt, z)
            }
        }
        None => text(rt, b"       -"),
    }
}

// What the correction answered, in the fitter's words.
fn answer(rt: &impl Print, v: Answer) -> io::Result<()> {
    match v {
        Ok(()) => text(rt, b"taken"),
        Err(Refusal::Pivot(i)) => {
            text(rt, b"refused: pivot ")?;
            whole(rt, i as u64)?;
            text(rt, b", estimate kept")
        }
        Err(Refusal::NotFinite) => text(rt, b"refused: result not finite, estimate kept"),
        _ => text(rt, b"refused, estimate kept"),
    }
}

// What became of the reading.
fn outcome(rt: &impl Print, o: Outcome) -> io::Result<()> {
    match o {
        None => text(rt, b"no reading, predicted only"),
        Some(v) => answer(rt, v),
    }
}

// Behind the answer: that the reading or its noise is not a number, or infinite.
fn remark(rt: &impl Print, g: Reading) -> io::Result<()> {
    if let Some(Measured { z, r }) = g {
        if z.is_nan() {
            text(rt, b" (the reading is not a number)")?;
        } else if z == f32::INFINITY {
            text(rt, b" (the reading is infinite)")?;
        } else if r.is_nan() {
            text(rt, b" (R is not a number)")?;
        } else if r == f32::INFINITY {
            text(rt, b" (R is infinite)")?;
        }
    }
    Ok(())
}

// The columns that both tables have: the step, the reading, the estimate x of the tension and its
// standard deviation, the root of p.
fn columns(rt: &impl Print, n: u64, g: Reading, x: f32, p: f32) -> io::Result<()> {
    right(rt, n)?;
    gap(rt)?;
    reading(rt, g)?;
    gap(rt)?;
    number(rt, x)?;
    gap(rt)?;
    number(rt, data_type::square_root(p))?;
    gap(rt)
}

// The columns' names.
pub fn head(rt: &impl Print) -> io::Result<()> {
    text(rt, b"Yarn tension at a feeder, in cN\n\n")?;
    text(rt, b" step   reading  estimate    spread  answer\n")
}

// The line of step n.
pub fn line(rt: &impl Print, n: u64, g: Reading, s: Step) -> io::Result<()> {
    let after = s.after;
    let o = s.outcome;
    let p = after.p;
    columns(rt, n, g, feeder::tension(after), p[0])?;
    outcome(rt, o)?;
    remark(rt, g)?;
    text(rt, b"\n")
}

// What became of the readings. The last sentence is true of every tally that may arrive.
pub fn foot(rt: &impl Print, t: Tally) -> io::Result<()>
    requires { t.before ≡ t.after }
{
    let taken = t.taken;
    let refused = t.refused;
    let lost = t.lost;
    println!(rt; "\n{taken} readings taken, {refused} refused, {lost} lost on the wire.")?;
    if 0 < t.refused {
        text(rt, b"A refusal changes nothing: the estimate was ")?;
        plain(rt, t.before)?;
        text(rt, b" before the last one and is ")?;
        plain(rt, t.after)?;
        text(rt, b" after it.\n")?;
    }
    Ok(())
}

// The title and the columns' names of the yarn's table.
pub fn yarn_head(rt: &impl Print) -> io::Result<()> {
    text(
        rt,
        b"\nAnother yarn, by the record of one state: blind is how many readings in a row were refused\n\n",
    )?;
    text(rt, b" step   reading  estimate    spread  blind  answer\n")
}

// What the operator is told once three readings or more in a row were refused.
fn alarm(rt: &impl Print, yarn: OneState) -> io::Result<()> {
    if 2 < yarn.blind {
        let blind = yarn.blind;
        print!(rt; ", blind for {blind} readings")?;
    }
    Ok(())
}

// The line of step n.
pub fn yarn_line(rt: &impl Print, n: u64, g: Reading, s: yarn_shift::Step) -> io::Result<()> {
    let after = s.after;
    let o = s.outcome;
    columns(rt, n, g, after.x, after.p)?;
    right(rt, after.blind as u64)?;
    gap(rt)?;
    outcome(rt, o)?;
    alarm(rt, after)?;
    remark(rt, g)?;
    text(rt, b"\n")
}

// For how many readings the yarn has been blind at the end.
pub fn yarn_foot(rt: &impl Print, yarn: OneState) -> io::Result<()> {
    let blind = yarn.blind;
    println!(rt; "\nBlind for {blind} readings at the end.")
}
