// Calls that read a matrix: one cell, a row, a column or the whole.
#![tactic(auto)]

use answers::{Answer, Refusal};
use jobs::Job;
use lists::Head;

// What a call hands back.
#[derive(Clone, Copy)]
pub struct Got {
    pub v: Answer,
    pub x: f32,
}

// An answer without a value.
pub fn told(v: Answer) -> Got {
    Got { v: v, x: 0.0 }
}

// A cell that was read, or the refusal.
fn cell(r: Result<f32, Refusal>) -> Got {
    match r {
        Ok(x) => Got { v: Ok(()), x: x },
        Err(why) => told(Err(why)),
    }
}

// The call of a function that reads a. Any other job gives an answer that no call of the library has.
pub fn read(j: Job, h: Head, a: &[f32], b: &mut [f32]) -> Got {
    let n = h.first;
    let c = h.second;
    match j {
        Job::Get => cell(row_major::get(n, c, &*a, h.row, h.column)),
        Job::GetRowCopy => told(row_major::get_row_copy(n, c, &*a, h.row, b)),
        Job::GetColumnCopy => told(row_major::get_column_copy(n, c, &*a, h.column, b)),
        Job::CopyTo => told(row_major::copy_to(n, c, &*a, b)),
        _ => told(Err(Refusal::Size(99))),
    }
}
