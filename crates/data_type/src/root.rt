// The square root of an f32, worked out from its bits.
ghost use Rattle.std.specs.Prelude.{◌≡◌, ◌+◌, ◌*◌, ◌^◌, ◌≤◌, ◌<◌};
ghost use Rattle.std.specs.Float.{binary32};
ghost use Rattle.std.specs.Float.Ieee.{prec, low};
ghost use Rattle.numbers.specs.Root.{near_root, sqrt_of};
ghost use Rattle.numbers.specs.Pattern.{root_bits};

// The whole number next to the root of v · 2^23: the one that the table proposes where it passes the
// test, else found digit by digit. Only the test is relied on. There is no tie: 4n is even and (2r + 1)²
// is odd.
fn near_root(v: u32) -> u64
    requires { v < 33554432 }
    ensures { result ≡ near_root 24 (v * 8388608) }
{
    let n = v as u64 * 8388608;
    let s = root_table::proposed(v);
    let passed = root_check::accepts_root(n, s);
    if passed {
        return s;
    }
    let r = root_entries::by_digits(n);
    if n - r * r <= r { r } else { r + 1 }
}

// The bit pattern of the root of m · 2^(d − 274), m of 24 binary digits.
fn root_bits(m: u32, d: u32) -> u32
    requires { (8388608 ≤ m) × (m < 16777216) × (d < 379) }
    ensures { result ≡ root_bits binary32 m d }
{
    let v = if d % 2 == 0 { m * 2 } else { m };
    let s = near_root(v);
    (d + 1) / 2 * 8388608 + s as u32
}

// A number m · 2^(d − 274), m of 24 binary digits.
#[derive(Clone, Copy)]
struct Scaled {
    m: u32,
    d: u32,
}

// The subnormal with the fraction t, which is moved up by its leading zeros within 24 bits.
fn lifted(t: u32) -> Scaled
    requires { (0 < t) × (t < 8388608) }
    ensures { (8388608 ≤ result.m) × (result.m < 16777216) × (result.d < 379) × (t * 2 ^ low binary32 ≡ result.m * 2 ^ (prec binary32 + result.d)) }
{
    let up = u32::leading_zeros(t) - 8;
    Scaled {
        m: t << up,
        d: 125 - up,
    }
}

// The root of x, the nearest f32. Either zero and +∞ are their own roots; a NaN and anything below
// zero have a NaN. Below 2^31 a pattern has no sign.
pub fn square_root(x: f32) -> f32
    ensures { result ≡ sqrt_of binary32 x }
{
    if x != x {
        return x;
    }
    let b = f32::to_bits(x);
    let e = (b / 8388608 % 256) as u8;
    let t = b % 8388608;
    if 2147483648 <= b {
        return if b == 2147483648 { x } else { 0.0 / 0.0 };
    }
    let a = match e {
        0 => {
            if t == 0 {
                return x;
            }
            lifted(t)
        }
        1..=254 => Scaled {
            m: 8388608 + t,
            d: e as u32 + 124,
        },
        255 => return x,
    };
    f32::from_bits(root_bits(a.m, a.d))
}
