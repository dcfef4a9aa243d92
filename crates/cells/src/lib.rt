// What the functions on cells are made of, for the crates above: the tests of sizes, buffers and
// places, and the work for callers that have tested them. A user calls those crates.
#![tactic(auto)]

pub mod cores;
pub mod gates;
