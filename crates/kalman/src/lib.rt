// The prediction of the regular filter, over lent buffers: x = A·x, P = A·P·Aᵀ + Q.
//
// Each public function asks its gate, and has its work done by `predictions` where the gate says done.
#![tactic(auto)]

mod regular;

pub use regular::{predict, predict_p, predict_x};
