// Cells of a matrix that a lent buffer holds, row-major: entry (r, c) is at r·cols + c.
#![tactic(auto)]

mod cell;
mod copy;
mod fill;

pub use cell::{get, set, set_symmetric};
pub use copy::{copy_to, get_column_copy, get_row_copy};
pub use fill::{
    clear, make_comatrix, make_identity, make_scalar, set_all, set_diagonal_to_scalar, set_zero,
};

// For the crates above, and not for users: the tests and the work that stand in `cells`.
pub use cells::{cores, gates};
