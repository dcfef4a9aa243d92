// Prediction and correction: definitions and laws, over the format. No functions: those at f32 are `kalman`, `updates` and `observations`.
#![tactic(auto)]
