// A line of the list: a function's name, a tag, and words.
use jobs::Job;
use list_tally::letters;
use lists::{Seen, Shape, seen};

// What the comparison of the line finds. Where it ends before the line does, or is lost, the line is
// bad.
pub fn compare(s: &[u8]) -> Seen {
    tagged(s).unwrap_or(seen::nothing(lines::LOST))
}

// The same, or nothing where the line does not begin with a function's name and a tag.
fn tagged(s: &[u8]) -> Option<Seen> {
    let (name, rest) = s.split_at(letters(s));
    let words = rest.strip_prefix(b" ")?;
    let tag = letters(words);
    if tag == 0 {
        return None;
    }
    let job = jobs::job_of(name)?;
    Some(called(s, name.len() + 1 + tag, job))
}

// The same from the words on. The calls take different parameters, so that a table would hold a closure
// around each: these arms.
fn called(s: &[u8], at: usize, j: Job) -> Seen {
    let h = jobs::shape_of(j);
    match j {
        Job::Recip => replay_numbers::recip(s, at, h),
        Job::SquareRoot => replay_numbers::square_root(s, at, h),
        Job::Predict => replay_prediction::compare(s, at, h),
        Job::Correct => replay_correction::compare(s, at, h, true),
        Job::Update => replay_correction::compare(s, at, h, false),
        Job::OneStatePredict => replay_yarn::predict(s, at, h),
        Job::OneStateCorrect => replay_yarn::correct(s, at, h),
        _ => matrices(s, at, j, h),
    }
}

// The same for what is done on matrices.
fn matrices(s: &[u8], at: usize, j: Job, h: Shape) -> Seen {
    match j {
        Job::Mult
        | Job::MultBuffered
        | Job::MultTransb
        | Job::MultaddTransb
        | Job::MultscaleTransb
        | Job::MultRowvector
        | Job::MultaddRowvector
        | Job::Sub
        | Job::SubInplaceA
        | Job::SubInplaceB
        | Job::AddInplaceA
        | Job::AddInplaceB
        | Job::Innovation
        | Job::PredictX
        | Job::PredictP => replay_products::compare(s, at, j, h),
        _ => replay_cells::compare(s, at, j, h),
    }
}
