// A number in whole hundredths, for a table.
#![tactic(auto)]

ghost use Rattle.hundredths.specs.Hundredths.{InHundredths};

// The hundredths nearest to v, or nothing where v is not a number, an infinity, negative, or 131,072 and
// above. By its bit pattern: with the exponent's field e and the digits m, the
// leading one among them, v is m / 2^(150 − e).
pub fn in_hundredths(v: f32) -> Option<u64>
    ensures { InHundredths v result }
{
    if v != v {
        return None;
    }
    let b = f32::to_bits(v);
    // the exponent's field, and 256 more where the sign is set
    let e = b / 8388608;
    if 143 < e {
        return None;
    }
    if e < 116 {
        // below 2^-11, so less than half a hundredth
        return Some(0);
    }
    let m = (8388608 + b % 8388608) as u64;
    let d: u64 = 1 << (150 - e);
    Some((m * 200 + d) / (d * 2))
}
