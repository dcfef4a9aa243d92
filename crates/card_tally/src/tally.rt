// The counts over a list of cards: another tally than those of `list_tally` and `roots`, which count calls
// and roots; what the three share is the lines, the bad ones and the told.
use card_list::Found;
use std::fmt;

// How many lines were read, comments too; how many cards were read, and how many differences there are, a
// card that differs or a line that is bad; how many cards were written again, and how many of them differ;
// how many lines are bad; and how many lines were told of.
#[derive(Clone, Copy, Default)]
pub struct Tally {
    pub lines: u64,
    pub cards: u64,
    pub differ: u64,
    pub written: u64,
    pub unlike: u64,
    pub bad: u64,
    pub told: u64,
}

impl Tally {
    // One line more that has no card to read.
    pub fn line(self) -> Tally {
        Tally {
            lines: self.lines.saturating_add(1),
            ..self
        }
    }

    // One line more that is bad, which counts as a difference.
    pub fn bad(self) -> Tally {
        Tally {
            lines: self.lines.saturating_add(1),
            differ: self.differ.saturating_add(1),
            bad: self.bad.saturating_add(1),
            ..self
        }
    }

    // One line more, whose cards were read and written again.
    pub fn cards(self, f: Found) -> Tally {
        Tally {
            lines: self.lines.saturating_add(1),
            cards: self.cards.saturating_add(f.read.cards),
            differ: self.differ.saturating_add(f.read.differ),
            written: self.written.saturating_add(f.back.cards),
            unlike: self.unlike.saturating_add(f.back.differ),
            ..self
        }
    }

    // One line more that was told of.
    pub fn tell(self) -> Tally {
        Tally {
            told: self.told.saturating_add(1),
            ..self
        }
    }
}

// The counts at the end, as the program writes them.
impl fmt::Display for Tally {
    fn fmt<W: fmt::Write>(&self, f: &mut fmt::Formatter<W>) -> fmt::Result {
        let cards = self.cards;
        let differ = self.differ;
        let written = self.written;
        let unlike = self.unlike;
        let bad = self.bad;
        write!(f, "{cards} cards read, {differ} differ\n")?;
        write!(f, "{written} cards written again, {unlike} differ\n")?;
        write!(f, "{bad} bad lines")
    }
}
