// Numbers: definitions and laws, over the format. No functions: those at f32 are `data_type`.
#![tactic(auto)]
