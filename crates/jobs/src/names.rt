// Which function a name means.
use crate::Job;

// The names of the functions, as the list has them.
const NAMES: [(&[u8], Job); 37] = [
    (b"get", Job::Get),
    (b"set", Job::Set),
    (b"set_symmetric", Job::SetSymmetric),
    (b"get_row_copy", Job::GetRowCopy),
    (b"get_column_copy", Job::GetColumnCopy),
    (b"copy_to", Job::CopyTo),
    (b"set_all", Job::SetAll),
    (b"clear", Job::Clear),
    (b"set_zero", Job::SetZero),
    (b"set_diagonal_to_scalar", Job::SetDiagonalToScalar),
    (b"make_scalar", Job::MakeScalar),
    (b"make_identity", Job::MakeIdentity),
    (b"make_comatrix", Job::MakeComatrix),
    (b"cholesky_decompose_lower", Job::CholeskyDecomposeLower),
    (b"invert_l_cholesky", Job::InvertLCholesky),
    (b"recip", Job::Recip),
    (b"square_root", Job::SquareRoot),
    (b"mult", Job::Mult),
    (b"mult_buffered", Job::MultBuffered),
    (b"mult_transb", Job::MultTransb),
    (b"multadd_transb", Job::MultaddTransb),
    (b"multscale_transb", Job::MultscaleTransb),
    (b"mult_rowvector", Job::MultRowvector),
    (b"multadd_rowvector", Job::MultaddRowvector),
    (b"sub", Job::Sub),
    (b"sub_inplace_a", Job::SubInplaceA),
    (b"sub_inplace_b", Job::SubInplaceB),
    (b"add_inplace_a", Job::AddInplaceA),
    (b"add_inplace_b", Job::AddInplaceB),
    (b"innovation", Job::Innovation),
    (b"predict_x", Job::PredictX),
    (b"predict_p", Job::PredictP),
    (b"predict", Job::Predict),
    (b"update_with_innovation", Job::Update),
    (b"correct", Job::Correct),
    (b"one_state_predict", Job::OneStatePredict),
    (b"one_state_correct", Job::OneStateCorrect),
];

// The function that a word names, or nothing where it names none.
pub fn job_of(word: &[u8]) -> Option<Job> {
    NAMES
        .iter()
        .find(|(name, _)| *name == word)
        .map(|(_, job)| *job)
}
