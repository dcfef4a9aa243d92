// Products of matrices that lent buffers hold, row-major.
//
// Each public function asks its gate, and has its family's work done where the gate says done: a promise of
// its own, and two lines.
#![tactic(auto)]

mod gates;
mod plain;
mod rowvector;
mod transb;

pub use plain::{mult, mult_buffered};
pub use rowvector::{mult_rowvector, multadd_rowvector};
pub use transb::{mult_transb, multadd_transb, multscale_transb};
