// The decomposition of a symmetric matrix into its lower Cholesky factor.
#![tactic(auto)]

pub mod cores;
mod decompose;
mod upper;

pub use decompose::cholesky_decompose_lower;
pub use pivots::{Pivot, pivot_of};
