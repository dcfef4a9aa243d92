// The stages of the correction of four states by two observations, by value, for the crate above, which
// has tested sizes and buffers; not for users.
#![tactic(auto)]

ghost use Rattle.std.specs.Prelude.{◌≡◌, ◌&&◌, ◌≤◌, length};
ghost use Rattle.numbers.specs.Finite.{all_finite};
ghost use Rattle.four_values.specs.Values.{in_four};
ghost use Rattle.four_stages.specs.Stages.{lent_in, Observed, Rooted, inverted, crossed, gained, spread, lessened, moved, fine};

use side_by_side::{Eight, Four, Sixteen};

// What a correction reads: x, P, H and R, row by row, and z.
#[derive(Clone, Copy)]
pub struct Operands {
    pub x: Four,
    pub p: Sixteen,
    pub h: Eight,
    pub r: Four,
    pub z0: f32,
    pub z1: f32,
}

// What goes before the pivots: the innovation, H·P and S.
#[derive(Clone, Copy)]
pub struct Seen {
    pub y0: f32,
    pub y1: f32,
    pub g: Eight,
    pub s: Four,
}

// What the decomposition of S leaves: how many pivots are taken, the numbers of S, and the reciprocals of
// the factor's diagonal where both are.
#[derive(Clone, Copy)]
pub struct Root {
    pub taken: usize,
    pub l: Four,
    pub d0: f32,
    pub d1: f32,
}

// The inverse of S, P·Hᵀ and the gain, these two in rows of two.
#[derive(Clone, Copy)]
pub struct Gain {
    pub i: Four,
    pub f: Eight,
    pub k: Eight,
}

// Everything that is read.
pub fn read_operands(x: &[f32], p: &[f32], h: &[f32], z: &[f32], r: &[f32]) -> Operands
    requires { (4 ≤ length x.now) × (16 ≤ length p.now) × (8 ≤ length h.now) × (2 ≤ length z.now) × (4 ≤ length r.now) }
    ensures { result ≡ lent_in x.now p.now h.now z.now r.now }
{
    Operands {
        x: side_by_side::read(x, 0),
        p: Sixteen {
            f0: side_by_side::read(p, 0),
            f1: side_by_side::read(p, 4),
            f2: side_by_side::read(p, 8),
            f3: side_by_side::read(p, 12),
        },
        h: Eight {
            f0: side_by_side::read(h, 0),
            f1: side_by_side::read(h, 4),
        },
        r: side_by_side::read(r, 0),
        z0: z[0],
        z1: z[1],
    }
}

// The innovation, H·P and S.
pub fn observe(b: Operands) -> Seen
    ensures { Observed b result }
{
    let g0 = four_values::row_times(b.h.f0, b.p);
    let g1 = four_values::row_times(b.h.f1, b.p);
    let s = four_values::rows_across(g0, g1, b.h);
    let y0 = b.z0 - four_values::row_on(b.h.f0, b.x);
    let y1 = b.z1 - four_values::row_on(b.h.f1, b.x);
    Seen {
        y0,
        y1,
        g: Eight { f0: g0, f1: g1 },
        s: Four {
            t0: s.t0 + b.r.t0,
            t1: s.t1 + b.r.t1,
            t2: s.t2 + b.r.t2,
            t3: s.t3 + b.r.t3,
        },
    }
}

// The decomposition of S, up to the pivot that is refused.
pub fn decompose(s: Four) -> Root
    ensures { Rooted s result }
{
    if !pivots::taken(s.t0) {
        return Root {
            taken: 0,
            l: Four {
                t0: s.t0 * 0.0,
                t1: s.t1,
                t2: s.t2,
                t3: s.t3,
            },
            d0: 0.0,
            d1: 0.0,
        };
    }
    let l00 = data_type::square_root(s.t0);
    let d0 = data_type::recip(l00);
    let l10 = s.t1 * d0;
    let rest = s.t3 - l10 * l10;
    if !pivots::taken(rest) {
        return Root {
            taken: 1,
            l: Four {
                t0: l00,
                t1: s.t1,
                t2: l10,
                t3: rest * d0,
            },
            d0,
            d1: 0.0,
        };
    }
    let l11 = data_type::square_root(rest);
    let d1 = data_type::recip(l11);
    Root {
        taken: 2,
        l: Four {
            t0: l00,
            t1: 0.0,
            t2: l10,
            t3: l11,
        },
        d0,
        d1,
    }
}

// The inverse of S from its factor: the entry below the diagonal, and the diagonal's reciprocals.
fn invert(l: f32, d0: f32, d1: f32) -> Four
    ensures { result ≡ inverted l d0 d1 }
{
    let i = (0.0 + -l * (1.0 * d0)) * d1 * d1;
    Four {
        t0: (1.0 * d0 + -l * i) * d0,
        t1: i,
        t2: i,
        t3: 1.0 * d1 * d1,
    }
}

// The inverse, P·Hᵀ and the gain.
pub fn gain_of(p: Sixteen, h: Eight, root: Root) -> Gain
    ensures { (result.i ≡ inverted root.l.t2 root.d0 root.d1) × (result.f ≡ crossed p h) × (result.k ≡ gained result.f result.i) }
{
    let i = invert(root.l.t2, root.d0, root.d1);
    let f0 = four_values::rows_across(p.f0, p.f1, h);
    let f1 = four_values::rows_across(p.f2, p.f3, h);
    Gain {
        i,
        f: Eight { f0, f1 },
        k: Eight {
            f0: four_values::square_times(f0, i),
            f1: four_values::square_times(f1, i),
        },
    }
}

// The gain times H·P.
pub fn spread_of(k: Eight, g: Eight) -> Sixteen
    ensures { result ≡ spread k g }
{
    Sixteen {
        f0: four_values::pair_times(k.f0.t0, k.f0.t1, g),
        f1: four_values::pair_times(k.f0.t2, k.f0.t3, g),
        f2: four_values::pair_times(k.f1.t0, k.f1.t1, g),
        f3: four_values::pair_times(k.f1.t2, k.f1.t3, g),
    }
}

// P less that.
pub fn lessen(p: Sixteen, t: Sixteen) -> Sixteen
    ensures { result ≡ lessened p t }
{
    Sixteen {
        f0: four_values::minus(p.f0, t.f0),
        f1: four_values::minus(p.f1, t.f1),
        f2: four_values::minus(p.f2, t.f2),
        f3: four_values::minus(p.f3, t.f3),
    }
}

// The new x.
pub fn move_by(x: Four, k: Eight, y0: f32, y1: f32) -> Four
    ensures { result ≡ moved x k «y0» «y1» }
{
    Four {
        t0: x.t0 + (k.f0.t0 * y0 + k.f0.t1 * y1),
        t1: x.t1 + (k.f0.t2 * y0 + k.f0.t3 * y1),
        t2: x.t2 + (k.f1.t0 * y0 + k.f1.t1 * y1),
        t3: x.t3 + (k.f1.t2 * y0 + k.f1.t3 * y1),
    }
}

// Whether it was so far and the four are finite too.
fn also(so_far: bool, t: Four) -> bool
    ensures { result ≡ so_far && all_finite 4 (in_four t) }
{
    so_far && finite::four(t.t0, t.t1, t.t2, t.t3)
}

// Whether the new x and P are finite.
pub fn is_fine(x: Four, n: Sixteen) -> bool
    ensures { result ≡ fine x n }
{
    let rows = also(also(also(also(true, n.f0), n.f1), n.f2), n.f3);
    also(true, x) && rows
}
