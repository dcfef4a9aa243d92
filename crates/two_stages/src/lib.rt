// The correction of two states by one observation before and after its pivot, by value, for the crate
// above, which has tested sizes and buffers; not for users. H·P and P·Hᵀ go from one to the other without
// the start of their sums, which nothing has to wait for.
#![tactic(auto)]

ghost use Rattle.std.specs.Prelude.{◌≡◌, ◌&&◌, ◌≤◌, length};
ghost use Rattle.std.specs.Float.Ieee.Scale.{finite};
ghost use Rattle.two_stages.specs.Stages.{lent_in, seen, renewal};

use side_by_side::Four;

// What a correction reads: x, P row by row, H, z and R.
#[derive(Clone, Copy)]
pub struct Operands {
    pub x0: f32,
    pub x1: f32,
    pub p: Four,
    pub h0: f32,
    pub h1: f32,
    pub z: f32,
    pub r: f32,
}

// What goes before the pivot: the innovation, S, and H·P and P·Hᵀ, these two without their start.
#[derive(Clone, Copy)]
pub struct Seen {
    pub y: f32,
    pub s: f32,
    pub u0: f32,
    pub u1: f32,
    pub v0: f32,
    pub v1: f32,
}

// What comes after it: the gain, the gain times H·P, the new x and the new P.
#[derive(Clone, Copy)]
pub struct Renewal {
    pub k0: f32,
    pub k1: f32,
    pub t: Four,
    pub w0: f32,
    pub w1: f32,
    pub n: Four,
}

// Everything that is read.
pub fn read_operands(x: &[f32], p: &[f32], h: &[f32], z: &[f32], r: &[f32]) -> Operands
    requires { (2 ≤ length x.now) × (4 ≤ length p.now) × (2 ≤ length h.now) × (1 ≤ length z.now) × (1 ≤ length r.now) }
    ensures { result ≡ lent_in x.now p.now h.now z.now r.now }
{
    Operands {
        x0: x[0],
        x1: x[1],
        p: side_by_side::read(p, 0),
        h0: h[0],
        h1: h[1],
        z: z[0],
        r: r[0],
    }
}

// The innovation, S, and H·P and P·Hᵀ without their start.
pub fn observe(b: Operands) -> Seen
    ensures { result ≡ seen b }
{
    let u0 = b.h0 * b.p.t0 + b.h1 * b.p.t2;
    let u1 = b.h0 * b.p.t1 + b.h1 * b.p.t3;
    let s = late_zeros::two_more(u0, b.h0, u1, b.h1, b.r);
    Seen {
        y: b.z - (b.h0 * b.x0 + b.h1 * b.x1),
        s,
        u0,
        u1,
        v0: b.p.t0 * b.h0 + b.p.t1 * b.h1,
        v1: b.p.t2 * b.h0 + b.p.t3 * b.h1,
    }
}

// The gain from the inverse of S, and what follows from it.
pub fn renew(b: Operands, s: Seen, i: f32) -> Renewal
    ensures { result ≡ renewal b s i }
{
    let k0 = late_zeros::once(s.v0, i);
    let k1 = late_zeros::once(s.v1, i);
    let t = Four {
        t0: late_zeros::twice(s.v0, i, s.u0),
        t1: late_zeros::twice(s.v0, i, s.u1),
        t2: late_zeros::twice(s.v1, i, s.u0),
        t3: late_zeros::twice(s.v1, i, s.u1),
    };
    Renewal {
        k0,
        k1,
        t,
        w0: b.x0 + k0 * s.y,
        w1: b.x1 + k1 * s.y,
        n: Four {
            t0: b.p.t0 - t.t0,
            t1: b.p.t1 - t.t1,
            t2: b.p.t2 - t.t2,
            t3: b.p.t3 - t.t3,
        },
    }
}

// Whether the new x and P are finite.
pub fn is_fine(w0: f32, w1: f32, n: Four) -> bool
    ensures { result ≡ (finite «w0» && finite «w1») && (((finite n.t0 && finite n.t1) && finite n.t2) && finite n.t3) }
{
    finite::two(w0, w1) && finite::four(n.t0, n.t1, n.t2, n.t3)
}
