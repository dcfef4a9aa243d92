// The test of a proposed root. A core: the `requires` keeps the squares within a word.
#![tactic(auto)]

ghost use Rattle.std.specs.Prelude.{◌≡◌, ◌<◌};
ghost use Rattle.numbers.specs.Proposed.{accepts};

// Whether s is the root of n in 24 binary digits: (2s − 1)² < 4n < (2s + 1)², which in whole numbers is
// s·s − s < n ≤ s·s + s; that s has 24 digits; and where it is the least of them, 2^23, that n is not
// below its square.
pub fn accepts_root(n: u64, s: u64) -> bool
    requires { (n < 281474976710656) × (s < 67108864) }
    ensures { result ≡ accepts 24 n s }
{
    let q = s * s;
    if n + s <= q {
        return false;
    }
    if q + s < n {
        return false;
    }
    if 8388608 < s && s < 16777216 {
        return true;
    }
    s == 8388608 && q <= n
}
