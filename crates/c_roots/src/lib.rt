// Root and reciprocal of a number, decomposition and inverse of a matrix, for C and Rust programs.
//
// A slice arrives as a pointer and a length. Each function hands on to a public function of the crates
// below and keeps that function's promise; of a matrix it says its answer as a code.
#![tactic(auto)]

pub mod factor;
pub mod number;
