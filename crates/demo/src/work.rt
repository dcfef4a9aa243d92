// The shifts from their first step to their last.
ghost use Rattle.std.specs.Prelude.{◌≡◌, IfOk};
ghost use Rattle.shift.specs.Tally.{Worked};
ghost use Rattle.yarn_shift.specs.Step.{watched};

use crate::table;
use one_state::OneState;
use shift::Tally;
use std::io;

// Runs every step of the feeder's shift, and writes its line: what became of the readings, or the error of
// a write.
pub fn run(rt: &impl Print) -> io::Result<Tally>
    ensures { IfOk result (Worked 18) }
{
    let mut f = feeder::start();
    let mut t = Tally {
        taken: 0,
        refused: 0,
        lost: 0,
        before: 0.0,
        after: 0.0,
    };
    for i in 0..shift::STEPS {
        let g = shift::arriving(i);
        let s = shift::advance(f, g);
        table::line(rt, i as u64 + 1, g, s)?;
        t = t.count(s);
        f = s.after;
    }
    Ok(t)
}

// Runs every step of the yarn's shift, and writes its line: the yarn at its end, or the error of a write.
pub fn watch(rt: &impl Print) -> io::Result<OneState>
    ensures { IfOk result (λ yarn. yarn ≡ watched 10) }
{
    let mut yarn = yarn_shift::start();
    for i in 0..yarn_shift::STEPS {
        let g = yarn_shift::arriving(i);
        let s = yarn_shift::advance(yarn, g);
        table::yarn_line(rt, i as u64 + 1, g, s)?;
        yarn = s.after;
    }
    Ok(yarn)
}
