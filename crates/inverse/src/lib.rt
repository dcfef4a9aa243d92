// The inverse of a matrix from its lower Cholesky factor.
#![tactic(auto)]

pub mod cores;
mod gates;
mod invert;

pub use invert::invert_l_cholesky;
