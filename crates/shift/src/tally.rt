// What became of the readings of a shift.
ghost use Rattle.std.specs.Prelude.{◌≡◌, ◌<◌};
ghost use Rattle.shift.specs.Tally.{total, counted};

use crate::step::Step;

// What became of the readings, and the tension's estimate before and after the last refusal.
#[derive(Clone, Copy)]
pub struct Tally {
    pub taken: u64,
    pub refused: u64,
    pub lost: u64,
    pub before: f32,
    pub after: f32,
}

impl Tally {
    // One step more.
    pub fn count(self, s: Step) -> Tally
        requires { total self < 18446744073709551615 }
        ensures { result ≡ counted s self }
    {
        let mut t = self;
        let outcome = s.outcome;
        match outcome {
            None => {
                t.lost = t.lost + 1;
            }
            Some(v) => {
                if answers::is_done(v) {
                    t.taken = t.taken + 1;
                } else {
                    t.refused = t.refused + 1;
                    t.before = feeder::tension(s.predicted);
                    t.after = feeder::tension(s.after);
                }
            }
        }
        t
    }
}
