// The counts over a list.
use lists::Seen;
use std::fmt;

// How many lines were read, comments too; how many are calls that could be read and how many numbers
// were compared in them; how many differences there are, a number that differs or a line that is bad;
// how many lines are bad; and how many lines were written of.
#[derive(Clone, Copy, Default)]
pub struct Tally {
    pub lines: u64,
    pub calls: u64,
    pub numbers: u64,
    pub differ: u64,
    pub bad: u64,
    pub told: u64,
}

impl Tally {
    // One line more that holds no call.
    pub fn comment(self) -> Tally {
        Tally {
            lines: self.lines.saturating_add(1),
            ..self
        }
    }

    // One line more that is bad, which counts as a difference.
    pub fn bad(self) -> Tally {
        Tally {
            lines: self.lines.saturating_add(1),
            differ: self.differ.saturating_add(1),
            bad: self.bad.saturating_add(1),
            ..self
        }
    }

    // One call more, of which the numbers were compared.
    pub fn call(self, o: Seen) -> Tally {
        Tally {
            lines: self.lines.saturating_add(1),
            calls: self.calls.saturating_add(1),
            numbers: self.numbers.saturating_add(o.numbers),
            differ: self.differ.saturating_add(o.differ),
            ..self
        }
    }

    // One line more that was told of.
    pub fn tell(self) -> Tally {
        Tally {
            told: self.told.saturating_add(1),
            ..self
        }
    }
}

// The counts at the end, as the program writes them.
impl fmt::Display for Tally {
    fn fmt<W: fmt::Write>(&self, f: &mut fmt::Formatter<W>) -> fmt::Result {
        let calls = self.calls;
        let numbers = self.numbers;
        let differ = self.differ;
        let bad = self.bad;
        write!(
            f,
            "{calls} calls, {numbers} numbers compared, {differ} differ\n{bad} bad lines"
        )
    }
}
