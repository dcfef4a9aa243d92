// A line of a function on cells, of the decomposition or of the inverse: at most two buffers.
#![tactic(auto)]

use answers::{Answer, Refusal};
use jobs::Job;
use lists::{Head, Seen, Shape, head_at, lend, seen};

// The call of a function that writes a, or of the inverse. Any other job gives an answer that no call
// of the library has.
fn write(j: Job, h: Head, a: &mut [f32], b: &mut [f32]) -> Answer {
    let n = h.first;
    match j {
        Job::Set => row_major::set(n, h.second, a, h.row, h.column, h.u),
        Job::SetSymmetric => row_major::set_symmetric(n, a, h.row, h.column, h.u),
        Job::SetAll => row_major::set_all(n, h.second, a, h.u),
        Job::Clear => row_major::clear(n, h.second, a),
        Job::SetZero => row_major::set_zero(n, h.second, a),
        Job::SetDiagonalToScalar => row_major::set_diagonal_to_scalar(n, a, h.u),
        Job::MakeScalar => row_major::make_scalar(n, a, h.u),
        Job::MakeIdentity => row_major::make_identity(n, a),
        Job::MakeComatrix => row_major::make_comatrix(n, a, h.u, h.v),
        Job::CholeskyDecomposeLower => cholesky::cholesky_decompose_lower(n, a),
        Job::InvertLCholesky => inverse::invert_l_cholesky(n, a, b),
        _ => Err(Refusal::Size(99)),
    }
}

// The call of a line, compared.
pub fn compare(s: &[u8], at: usize, j: Job, h: Shape) -> Seen {
    let head = head_at(s, at, h);
    let mut a = lend(s, head.next, 0 < h.buffers);
    let mut b = lend(s, a.next, 1 < h.buffers);
    let got = match j {
        Job::Get | Job::GetRowCopy | Job::GetColumnCopy | Job::CopyTo => read_calls::read(
            j,
            head,
            a.numbers(),
            b.numbers_mut(),
        ),
        _ => read_calls::told(write(j, head, a.numbers_mut(), b.numbers_mut())),
    };
    let answered = seen::answer_met(s, b.next, got.v);
    let valued = if h.value {
        seen::value_met(s, answered, got.x)
    } else {
        answered
    };
    let all = [a.numbers(), b.numbers()];
    seen::buffers_met(s, valued, &all[..h.buffers.min(2)])
}
