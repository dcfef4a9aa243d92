// Bit patterns of f32 numbers, as a list spells them.
ghost use Rattle.std.specs.Prelude.{◌≡◌};
ghost use Rattle.std.specs.Float.{binary32};
ghost use Rattle.std.specs.Float.Ieee.{of_bits, nan_bits};
ghost use Rattle.lines.specs.Pattern.{bits_of, same_bits};

use std::num::{f32_from_bits_with_nan, f32_to_bits_with_nan};

// Whether b is the pattern of a NaN: all ones in the exponent, and some digit below it.
fn is_nan(b: u32) -> bool
    ensures { result ≡ nan_bits binary32 b }
{
    0x7f80_0000 < b % 0x8000_0000
}

// The f32 with the pattern b: the one NaN where it is a NaN's.
pub fn float_of(b: u32) -> f32
    ensures { result ≡ of_bits binary32 b }
{
    f32_from_bits_with_nan(b)
}

// The pattern of x, for a NaN the quiet one without a sign.
pub fn bits_of(x: f32) -> u32
    ensures { result ≡ bits_of x }
{
    f32_to_bits_with_nan(x)
}

// Whether two patterns are of the same number: they are equal, or both are a NaN's.
pub fn same(a: u32, b: u32) -> bool
    ensures { result ≡ same_bits a b }
{
    if is_nan(a) { is_nan(b) } else { a == b }
}
