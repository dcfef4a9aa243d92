// The readings of the shift.
ghost use Rattle.std.specs.Prelude.{◌<◌};
ghost use Rattle.shift.specs.Readings.{Brings};

use wire::{Measured, Reading};

// How many steps the shift has.
pub const STEPS: usize = 18;

// The tension that the sensor measured in each step, in cN.
const TENSION: [f32; 18] = [
    36.8, 33.1, 35.9, 37.4, 34.2, 36.0, 35.2, 38.3, 35.1, 37.0, 39.2, 36.1, 37.7, 35.9, 39.6, 38.1,
    36.8, 39.4,
];

// What the wire brings in a step, counted from 0. It is dropped in step 6; with the reading of step 11
// comes a noise that is not a number, and with that of step 15 one that is infinite; in step 13 the
// reading itself is not a number.
pub fn arriving(step: usize) -> Reading
    requires { step < 18 }
    ensures { Brings step result }
{
    let z = TENSION[step];
    match step {
        6 => None,
        11 => Some(Measured { z, r: f32::NAN }),
        13 => Some(Measured {
            z: f32::NAN,
            r: 4.0,
        }),
        15 => Some(Measured {
            z,
            r: f32::INFINITY,
        }),
        _ => Some(Measured { z, r: 4.0 }),
    }
}
