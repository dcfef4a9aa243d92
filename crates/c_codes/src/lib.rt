// The code of an answer: one number for callers that have no enum of ours.
#![tactic(auto)]

ghost use Rattle.std.specs.Prelude.{◌≡◌};
ghost use Rattle.c_codes.specs.Code.{code_of};

use answers::Answer;

// The refusal's number times 100, plus what it carries, or 99 where that is above 99, so that any number
// may be carried; 0 for done.
pub fn code_of(v: Answer) -> usize
    ensures { result ≡ code_of v }
{
    answers::number_of(v) * 100 + answers::carried_by(v).min(99)
}
