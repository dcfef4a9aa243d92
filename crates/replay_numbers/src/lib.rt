// A line of the reciprocal or of the root.
#![tactic(auto)]

ghost use Rattle.std.specs.Prelude.{◌≡◌};
ghost use Rattle.std.specs.Float.{binary32};
ghost use Rattle.numbers.specs.Reciprocal.{recip_of};
ghost use Rattle.numbers.specs.Root.{sqrt_of};
ghost use Rattle.replay_numbers.specs.Number.{back_met, number_met};

use lists::{Seen, Shape, head_at, seen};

// The number x that came back against the words at a position: the answer, and the value.
#[tactic(auto, unfolding(crate::specs::Number::back_met))]
fn met(s: &[u8], at: usize, x: f32) -> Seen
    ensures { result ≡ back_met s.now at x }
{
    let answered = seen::answer_met(s, at, Ok(()));
    seen::value_met(s, answered, x)
}

// The reciprocal of the line's number, compared with what the line has. It and the next are three lines
// each; with the function as a parameter their contracts would have four clauses more.
#[tactic(auto, unfolding(crate::specs::Number::number_met))]
pub fn recip(s: &[u8], at: usize, h: Shape) -> Seen
    ensures { result ≡ number_met (recip_of binary32) s.now at h }
{
    let head = head_at(s, at, h);
    let x = data_type::recip(head.u);
    met(s, head.next, x)
}

// The square root of the line's number, compared with what the line has.
#[tactic(auto, unfolding(crate::specs::Number::number_met))]
pub fn square_root(s: &[u8], at: usize, h: Shape) -> Seen
    ensures { result ≡ number_met (sqrt_of binary32) s.now at h }
{
    let head = head_at(s, at, h);
    let x = data_type::square_root(head.u);
    met(s, head.next, x)
}
