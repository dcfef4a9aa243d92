// Decomposition and inverse: definitions and laws, over the format. No functions: those at f32 are `cholesky` and `inverse`.
#![tactic(auto)]
