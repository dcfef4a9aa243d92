// The functions that a line of a list can call: what each is called, and what it takes.
#![tactic(auto)]

mod names;
mod shapes;

pub use names::job_of;
pub use shapes::shape_of;

// A function of the filter, as the list names it.
#[derive(Clone, Copy)]
pub enum Job {
    Get,
    Set,
    SetSymmetric,
    GetRowCopy,
    GetColumnCopy,
    CopyTo,
    SetAll,
    Clear,
    SetZero,
    SetDiagonalToScalar,
    MakeScalar,
    MakeIdentity,
    MakeComatrix,
    CholeskyDecomposeLower,
    InvertLCholesky,
    Recip,
    SquareRoot,
    Mult,
    MultBuffered,
    MultTransb,
    MultaddTransb,
    MultscaleTransb,
    MultRowvector,
    MultaddRowvector,
    Sub,
    SubInplaceA,
    SubInplaceB,
    AddInplaceA,
    AddInplaceB,
    Innovation,
    PredictX,
    PredictP,
    Predict,
    Update,
    Correct,
    OneStatePredict,
    OneStateCorrect,
}
