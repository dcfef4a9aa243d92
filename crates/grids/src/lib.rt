// Buffers that hold a matrix: definitions and laws. No functions: those at f32 are `row_major` and `sums`.
#![tactic(auto)]
