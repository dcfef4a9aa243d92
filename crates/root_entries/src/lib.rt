// The whole part of a root, a digit at a time, and with it an entry of the table of roots.
//
// A core: `requires` say what a caller has to see to. The table itself is `lower_roots` and `upper_roots`.
#![tactic(auto)]

ghost use Rattle.std.specs.Prelude.{◌+◌, ◌*◌, ◌≤◌, ◌<◌};
ghost use Rattle.numbers.specs.Proposed.{IsEntry, entry_in};

// The whole part of the root of n, which has 48 binary digits at most: a digit at a time, from the
// highest of 24 down. The digit itself is what the loop counts by: it is halved until none is left.
pub fn by_digits(n: u64) -> u64
    requires { n < 281474976710656 }
    ensures { (result * result ≤ n) × (n < (result + 1) * (result + 1)) }
{
    let mut r: u64 = 0;
    let mut b: u64 = 8388608;
    while 0 < b {
        let t = r + b;
        if t * t <= n {
            r = t;
        }
        b = b / 2;
    }
    r
}

// The table's number at i, worked out: the entry, and nothing behind it to improve an estimate by.
pub fn worked_out(i: u32) -> u64
    requires { i < 1024 }
    ensures { IsEntry i (entry_in result) }
{
    by_digits(i as u64 * 1048576) * 281474976710656
}
