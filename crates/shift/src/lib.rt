// A feeder's shift: its readings, its steps, and the count of what became of the readings.
#![tactic(auto)]

mod arrivals;
mod step;
mod tally;

pub use arrivals::{STEPS, arriving};
pub use step::{Step, advance};
pub use tally::Tally;
