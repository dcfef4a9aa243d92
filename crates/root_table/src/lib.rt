// The table of roots, whole, and the root that is proposed from it (R37).
//
// A core: `requires` say what a caller has to see to. Nothing is promised of a proposal but its size;
// `root_check` tests it.
#![tactic(auto)]

ghost use Rattle.std.specs.Prelude.{◌<◌};
ghost use Rattle.numbers.specs.Proposed.{IsEntry, entry_in};

// The table's number at i, which begins with entry i.
pub fn number_at(i: u32) -> u64
    requires { i < 1024 }
    ensures { IsEntry i (entry_in result) }
{
    let k = i % 512;
    if i < 512 {
        lower_roots::number_of(k)
    } else {
        upper_roots::number_of(k)
    }
}

// A number near the root of v · 2^23, for v of 25 binary digits at most. It starts from the entry of v's
// first ten digits; the other fifteen move it.
pub fn proposed(v: u32) -> u64
    requires { v < 33554432 }
    ensures { result < 67108864 }
{
    let w = number_at(v / 32768);
    improved(w, (v % 32768) as u64)
}

// The entry's root, which w begins with, moved t along the chord to the next entry's and away from it by
// the root's bend: slope and bend are the last 22 and 10 of w's binary digits, and the sum has 23 behind
// the point.
fn improved(w: u64, t: u64) -> u64
    requires { t < 32768 }
    ensures { result < 67108864 }
{
    let slope = w / 1024 % 4194304;
    let bend = w % 1024;
    (w / 65536 + slope * t + bend * (t * (32768 - t) / 8192)) / 8388608
}
