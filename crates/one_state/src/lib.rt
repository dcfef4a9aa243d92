// The one-state filter: the tension of one yarn, by value. A total starts at +0, as the general
// filter's does, so −0 becomes +0.
#![tactic(auto)]

ghost use Rattle.std.specs.Prelude.{◌≡◌};
ghost use Rattle.one_state.specs.OneState.{fresh, blinded, predicted, corrected};

use answers::{Answer, Refusal};
use pivots::Pivot;

// Tension on one yarn: the estimate x and its spread p, the model a and q, the reading's h and r; and
// how many corrections were refused in a row, 255 for that many or more.
#[repr(C)]
#[derive(Clone, Copy)]
pub struct OneState {
    pub x: f32,
    pub p: f32,
    pub a: f32,
    pub q: f32,
    pub h: f32,
    pub r: f32,
    pub blind: u8,
}

// What a correction hands back.
#[derive(Clone, Copy)]
pub enum Corrected {
    // The record with the new x and p, blind no more.
    Accepted(OneState),
    // Refused with 4, of the one pivot 0, or with 9: the record with its floats as they were and the
    // count one up, and which it is.
    Refused(OneState, Answer),
}

impl OneState {
    // The record of these six numbers, with no correction refused yet.
    pub fn new(x: f32, p: f32, a: f32, q: f32, h: f32, r: f32) -> OneState
        ensures { result ≡ fresh x p a q h r }
    {
        OneState {
            x,
            p,
            a,
            q,
            h,
            r,
            blind: 0,
        }
    }

    // The record with its count one up, or still 255.
    fn blinded(self) -> OneState
        ensures { result ≡ blinded self }
    {
        let mut next = self;
        next.blind = self.blind.saturating_add(1);
        next
    }

    // The record with x and p as the model moves them: a·x, and a·p·a + q. The count stays.
    pub fn predict(self) -> OneState
        ensures { result ≡ predicted self }
    {
        let p = self.p;
        let a = self.a;
        let ap = 0.0 + a * p;
        let apa = 0.0 + ap * a;
        let mut next = self;
        next.x = a * self.x;
        next.p = apa + self.q;
        next
    }

    // The record with x and p as the reading z moves them, and a count of 0; or the record with its
    // floats as they were and the count one up, where the reading's spread S is not above zero, or not
    // finite, NaN included (4), or where the new x or p is not finite (9).
    pub fn correct(self, z: f32) -> Corrected
        ensures { result ≡ corrected self z }
    {
        let x = self.x;
        let p = self.p;
        let h = self.h;
        let hp = 0.0 + h * p;
        let hph = 0.0 + hp * h;
        match pivots::pivot_of(hph + self.r) {
            Pivot::Accepted(_, d) => {
                // S⁻¹, from the reciprocal d of S's root
                let inverse = 1.0 * d * d;
                let pht = 0.0 + p * h;
                let k = 0.0 + pht * inverse;
                let y = z - h * x;
                let khp = 0.0 + k * hp;
                let mut next = self;
                next.x = x + k * y;
                next.p = p - khp;
                next.blind = 0;
                if finite::is_finite(next.x) && finite::is_finite(next.p) {
                    Corrected::Accepted(next)
                } else {
                    Corrected::Refused(self.blinded(), Err(Refusal::NotFinite))
                }
            }
            Pivot::Refused(_) => Corrected::Refused(self.blinded(), Err(Refusal::Pivot(0))),
        }
    }
}
