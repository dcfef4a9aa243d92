// Four totals that run side by side, and their four cells, for the crates above, which have tested
// sizes and buffers; not for users.
#![tactic(auto)]

ghost use Rattle.std.specs.Prelude.{◌≡◌, ◌+◌, ◌*◌, ◌<◌, ◌≤◌, length, get_or, set};
ghost use Rattle.std.specs.Float.{binary32, nan};
ghost use Rattle.std.specs.Float.Ieee.{add, mul};

// Names and no array: each number's law speaks of it by its name, and the four stay in registers.
#[derive(Clone, Copy)]
pub struct Four {
    pub t0: f32,
    pub t1: f32,
    pub t2: f32,
    pub t3: f32,
}

// Eight, twelve and sixteen of them, in fours.
#[derive(Clone, Copy)]
pub struct Eight {
    pub f0: Four,
    pub f1: Four,
}

#[derive(Clone, Copy)]
pub struct Twelve {
    pub f0: Four,
    pub f1: Four,
    pub f2: Four,
}

#[derive(Clone, Copy)]
pub struct Sixteen {
    pub f0: Four,
    pub f1: Four,
    pub f2: Four,
    pub f3: Four,
}

// x times the numbers of b at p and, each w further, at three more places.
pub fn times(x: f32, b: &[f32], p: usize, w: usize) -> Four
    requires { p + 3 * w < length b.now }
    ensures { (result.t0 ≡ mul binary32 x (get_or b.now p nan))
        × (result.t1 ≡ mul binary32 x (get_or b.now (p + w) nan))
        × (result.t2 ≡ mul binary32 x (get_or b.now (p + w + w) nan))
        × (result.t3 ≡ mul binary32 x (get_or b.now (p + w + w + w) nan)) }
{
    let p1 = p + w;
    let p2 = p1 + w;
    let p3 = p2 + w;
    Four {
        t0: x * b[p],
        t1: x * b[p1],
        t2: x * b[p2],
        t3: x * b[p3],
    }
}

// The numbers in four cells of c from at upward.
pub fn read(c: &[f32], at: usize) -> Four
    requires { at + 4 ≤ length c.now }
    ensures { (result.t0 ≡ get_or c.now at nan)
        × (result.t1 ≡ get_or c.now (at + 1) nan)
        × (result.t2 ≡ get_or c.now (at + 2) nan)
        × (result.t3 ≡ get_or c.now (at + 3) nan) }
{
    Four {
        t0: c[at],
        t1: c[at + 1],
        t2: c[at + 2],
        t3: c[at + 3],
    }
}

// The sums, number by number.
pub fn plus(s: Four, t: Four) -> Four
    ensures { (result.t0 ≡ add binary32 s.t0 t.t0)
        × (result.t1 ≡ add binary32 s.t1 t.t1)
        × (result.t2 ≡ add binary32 s.t2 t.t2)
        × (result.t3 ≡ add binary32 s.t3 t.t3) }
{
    Four {
        t0: s.t0 + t.t0,
        t1: s.t1 + t.t1,
        t2: s.t2 + t.t2,
        t3: s.t3 + t.t3,
    }
}

// The four, each with x times its number of b: these lie side by side from p on.
pub fn more(t: Four, x: f32, b: &[f32], p: usize) -> Four
    requires { p + 3 < length b.now }
    ensures { (result.t0 ≡ add binary32 t.t0 (mul binary32 x (get_or b.now p nan)))
        × (result.t1 ≡ add binary32 t.t1 (mul binary32 x (get_or b.now (p + 1) nan)))
        × (result.t2 ≡ add binary32 t.t2 (mul binary32 x (get_or b.now (p + 2) nan)))
        × (result.t3 ≡ add binary32 t.t3 (mul binary32 x (get_or b.now (p + 3) nan))) }
{
    Four {
        t0: t.t0 + x * b[p],
        t1: t.t1 + x * b[p + 1],
        t2: t.t2 + x * b[p + 2],
        t3: t.t3 + x * b[p + 3],
    }
}

// Each of the four times scale.
pub fn scaled(t: Four, scale: f32) -> Four
    ensures { (result.t0 ≡ mul binary32 t.t0 scale)
        × (result.t1 ≡ mul binary32 t.t1 scale)
        × (result.t2 ≡ mul binary32 t.t2 scale)
        × (result.t3 ≡ mul binary32 t.t3 scale) }
{
    Four {
        t0: t.t0 * scale,
        t1: t.t1 * scale,
        t2: t.t2 * scale,
        t3: t.t3 * scale,
    }
}

// The four, in four cells of c from at upward.
pub fn put(c: &mut [f32], at: usize, t: Four)
    requires { at + 4 ≤ length c.old }
    ensures { c.new ≡ set (set (set (set c.old at t.t0) (at + 1) t.t1) (at + 2) t.t2) (at + 3) t.t3 }
{
    c[at] = t.t0;
    c[at + 1] = t.t1;
    c[at + 2] = t.t2;
    c[at + 3] = t.t3;
}

// Two numbers, in two cells of c from at upward.
pub fn put_two(c: &mut [f32], at: usize, t0: f32, t1: f32)
    requires { at + 2 ≤ length c.old }
    ensures { c.new ≡ set (set c.old at t0) (at + 1) t1 }
{
    c[at] = t0;
    c[at + 1] = t1;
}

// Four numbers, in four cells of c from at upward.
pub fn put_four(c: &mut [f32], at: usize, t0: f32, t1: f32, t2: f32, t3: f32)
    requires { at + 4 ≤ length c.old }
    ensures { c.new ≡ set (set (set (set c.old at t0) (at + 1) t1) (at + 2) t2) (at + 3) t3 }
{
    put(c, at, Four { t0, t1, t2, t3 });
}
