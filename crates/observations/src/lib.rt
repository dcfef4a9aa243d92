// The correction of the regular observation, over lent buffers of n states and m observations: the
// innovation and the update from it, and both at once.
#![tactic(auto)]

pub use innovations::{innovation, update_with_innovation};
pub use readings::correct;
