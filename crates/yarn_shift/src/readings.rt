// The readings of the shift.
ghost use Rattle.std.specs.Prelude.{◌≡◌};
ghost use Rattle.yarn_shift.specs.Readings.{reading_in};

use wire::{Measured, Reading};

// How many steps the shift has.
pub const STEPS: usize = 10;

// What the wire brings in a step, counted from 0. From step 3 to step 6 nothing of use comes: a reading
// that is not a number, one whose noise is not a number, none at all, and an infinite one. After the
// shift nothing comes.
pub fn arriving(step: usize) -> Reading
    ensures { result ≡ reading_in step }
{
    match step {
        0 => Some(Measured { z: 36.8, r: 4.0 }),
        1 => Some(Measured { z: 33.1, r: 4.0 }),
        2 => Some(Measured { z: 35.9, r: 4.0 }),
        3 => Some(Measured {
            z: f32::NAN,
            r: 4.0,
        }),
        4 => Some(Measured {
            z: 37.4,
            r: f32::NAN,
        }),
        5 => None,
        6 => Some(Measured {
            z: f32::INFINITY,
            r: 4.0,
        }),
        7 => Some(Measured { z: 38.3, r: 4.0 }),
        8 => Some(Measured { z: 35.1, r: 4.0 }),
        9 => Some(Measured { z: 37.0, r: 4.0 }),
        _ => None,
    }
}
