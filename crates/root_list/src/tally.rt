// The counts over a list.
ghost use Rattle.std.specs.Prelude.{◌≡◌};
ghost use Rattle.root_list.specs.Replay.{count_of, cut_off, Room};

use crate::line::Line;
use crate::pattern::agrees;

// How many pairs were compared, how many of these differ, and how many lines are neither a pair
// nor a comment.
#[derive(Clone, Copy)]
pub struct Tally {
    pub compared: u64,
    pub differ: u64,
    pub bad: u64,
}

impl Tally {
    // One line more.
    pub fn count(self, l: Line) -> Tally
        requires { Room self }
        ensures { result ≡ count_of l self }
    {
        match l {
            Line::Comment => self,
            Line::Pair(arg, want) => {
                let compared = self.compared + 1;
                if agrees(arg, want) {
                    Tally { compared, ..self }
                } else {
                    Tally {
                        compared,
                        differ: self.differ + 1,
                        ..self
                    }
                }
            }
            Line::Bad => Tally {
                bad: self.bad + 1,
                ..self
            },
        }
    }

    // One difference more, for an input that may have been cut off.
    pub fn cut_off(self) -> Tally
        requires { Room self }
        ensures { result ≡ cut_off self }
    {
        Tally {
            differ: self.differ + 1,
            ..self
        }
    }
}
