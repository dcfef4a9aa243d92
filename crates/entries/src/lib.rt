// Products: definitions and laws, over the format. No functions: those at f32 are `products` and the rooms below it.
#![tactic(auto)]
