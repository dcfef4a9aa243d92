// A yarn's shift by the record of one state, in which it is blind for a while: its readings and its
// steps.
#![tactic(auto)]

mod readings;
mod step;

pub use readings::{STEPS, arriving};
pub use step::{Step, advance, start};
