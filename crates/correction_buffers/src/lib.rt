// The buffers of a correction or an update, as a line lends them and as the call leaves them.
#![tactic(auto)]

ghost use Rattle.correction_buffers.specs.Buffers.{Fit};

use lists::{Lent, Seen, lend, seen};

// The twelve buffers of a correction; of an update, which takes no z, that one is none.
#[derive(Clone, Copy)]
pub struct Buffers {
    pub x: Lent,
    pub p: Lent,
    pub h: Lent,
    pub z: Lent,
    pub r: Lent,
    pub y: Lent,
    pub s: Lent,
    pub k: Lent,
    pub inverse: Lent,
    pub hp: Lent,
    pub pht: Lent,
    pub khp: Lent,
}

// The buffers whose words begin at a position: each is as long as its length says. An update's line has no
// z, and `with_z` says which of the two lines it is.
pub fn read(t: &[u8], at: usize, with_z: bool) -> Buffers
    ensures { Fit result }
{
    let x = lend(t, at, true);
    let p = lend(t, x.next, true);
    let h = lend(t, p.next, true);
    let z = lend(t, h.next, with_z);
    let r = lend(t, z.next, true);
    let y = lend(t, r.next, true);
    let s = lend(t, y.next, true);
    let k = lend(t, s.next, true);
    let inverse = lend(t, k.next, true);
    let hp = lend(t, inverse.next, true);
    let pht = lend(t, hp.next, true);
    let khp = lend(t, pht.next, true);
    Buffers {
        x,
        p,
        h,
        z,
        r,
        y,
        s,
        k,
        inverse,
        hp,
        pht,
        khp,
    }
}

// All buffers after the call against the next words; without z those behind it stand one place earlier.
pub fn compared(t: &[u8], o: Seen, b: &Buffers, with_z: bool) -> Seen {
    let all = [
        b.x.numbers(),
        b.p.numbers(),
        b.h.numbers(),
        b.z.numbers(),
        b.r.numbers(),
        b.y.numbers(),
        b.s.numbers(),
        b.k.numbers(),
        b.inverse.numbers(),
        b.hp.numbers(),
        b.pht.numbers(),
        b.khp.numbers(),
    ];
    if with_z {
        return seen::buffers_met(t, o, &all);
    }
    let mut without = [all[0]; 11];
    without[1..3].copy_from_slice(&all[1..3]);
    without[3..].copy_from_slice(&all[4..]);
    seen::buffers_met(t, o, &without)
}
