// Products, sums and differences of matrices, for C and Rust programs.
//
// A slice arrives as a pointer and a length. Each function hands on to a public function of the crates
// below, says its answer as a code, and keeps that function's promise. Alike as they are, each is a name that
// C links.
#![tactic(auto)]

pub mod product;
pub mod sum;
