// a·bᵀ, a of rows by inner and b of cols by inner, for the crates above, which have tested sizes and
// buffers; not for users. Every sum has the start and the order of its definition; four run side by
// side.
#![tactic(auto)]

mod each;
mod stored;

pub use each::{transb_add_cells, transb_scale_cells};
pub use stored::transb_cells;
