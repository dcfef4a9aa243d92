// What the wire from a feeder brings, and what becomes of it.
#![tactic(auto)]

use answers::Answer;

// A reading that arrived: the tension z in cN, and the reading's noise R in cN².
#[derive(Clone, Copy)]
pub struct Measured {
    pub z: f32,
    pub r: f32,
}

// What the wire brings in a step: a reading, or nothing where the wire was dropped.
pub type Reading = Option<Measured>;

// What became of a step's reading: what the correction answered, or nothing where none arrived.
pub type Outcome = Option<Answer>;
