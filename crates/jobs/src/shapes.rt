// What a function takes.
use crate::Job;
use lists::Shape;

// A shape without row, column and value.
fn plain(sizes: usize, floats: usize, buffers: usize) -> Shape {
    Shape {
        sizes,
        floats,
        buffers,
        ..Shape::default()
    }
}

// A shape with a row or a column, or both.
fn placed(row: bool, column: bool, shape: Shape) -> Shape {
    Shape {
        row,
        column,
        ..shape
    }
}

// A shape with a value that comes back.
fn valued(shape: Shape) -> Shape {
    Shape {
        value: true,
        ..shape
    }
}

// The shape of each function: those that take the same stand together.
pub fn shape_of(j: Job) -> Shape {
    match j {
        Job::Get => valued(placed(true, true, plain(2, 0, 1))),
        Job::Set => placed(true, true, plain(2, 1, 1)),
        Job::SetSymmetric => placed(true, true, plain(1, 1, 1)),
        Job::GetRowCopy => placed(true, false, plain(2, 0, 2)),
        Job::GetColumnCopy => placed(false, true, plain(2, 0, 2)),
        Job::CopyTo | Job::SubInplaceA | Job::SubInplaceB | Job::AddInplaceA | Job::AddInplaceB =>
            plain(2, 0, 2),
        Job::SetAll => plain(2, 1, 1),
        Job::Clear | Job::SetZero => plain(2, 0, 1),
        Job::SetDiagonalToScalar | Job::MakeScalar => plain(1, 1, 1),
        Job::MakeIdentity | Job::CholeskyDecomposeLower => plain(1, 0, 1),
        Job::MakeComatrix => plain(1, 2, 1),
        Job::InvertLCholesky => plain(1, 0, 2),
        Job::Recip | Job::SquareRoot => valued(plain(0, 1, 0)),
        Job::Mult | Job::MultTransb | Job::MultaddTransb => plain(3, 0, 3),
        Job::MultBuffered => plain(3, 0, 4),
        Job::MultscaleTransb => plain(3, 1, 3),
        Job::MultRowvector | Job::MultaddRowvector | Job::Sub => plain(2, 0, 3),
        Job::Innovation => plain(2, 0, 4),
        Job::PredictX => plain(1, 0, 3),
        Job::PredictP => plain(1, 0, 4),
        Job::Predict => plain(1, 0, 6),
        Job::Update => plain(2, 0, 11),
        Job::Correct => plain(2, 0, 12),
        Job::OneStatePredict => plain(0, 0, 1),
        Job::OneStateCorrect => plain(0, 1, 1),
    }
}
