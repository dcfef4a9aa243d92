// Matrices of two and four rows and columns by value, in fours: their products row by row, and their
// cells, for the crates above, which have tested sizes and buffers; not for users. Each sum has the start
// and the order of its definition.
#![tactic(auto)]

ghost use Rattle.std.specs.Prelude.{◌≡◌, ◌≤◌, length};
ghost use Rattle.grids.specs.Grid.{cell, grid};
ghost use Rattle.four_values.specs.Values.{large, in_wide, in_large};
ghost use Rattle.four_values.specs.Products.{row_times, with_two, rows_across, square_times, pair_times, row_dot, differences, transposed};

use side_by_side::{Eight, Four, Sixteen};

// A row times P.
pub fn row_times(h: Four, p: Sixteen) -> Four
    ensures { result ≡ row_times h p }
{
    Four {
        t0: 0.0 + h.t0 * p.f0.t0 + h.t1 * p.f1.t0 + h.t2 * p.f2.t0 + h.t3 * p.f3.t0,
        t1: 0.0 + h.t0 * p.f0.t1 + h.t1 * p.f1.t1 + h.t2 * p.f2.t1 + h.t3 * p.f3.t1,
        t2: 0.0 + h.t0 * p.f0.t2 + h.t1 * p.f1.t2 + h.t2 * p.f2.t2 + h.t3 * p.f3.t2,
        t3: 0.0 + h.t0 * p.f0.t3 + h.t1 * p.f1.t3 + h.t2 * p.f2.t3 + h.t3 * p.f3.t3,
    }
}

// t, and x times the row a and y times the row b on top.
pub fn with_two(t: Four, x: f32, a: Four, y: f32, b: Four) -> Four
    ensures { result ≡ with_two t x a y b }
{
    Four {
        t0: t.t0 + x * a.t0 + y * b.t0,
        t1: t.t1 + x * a.t1 + y * b.t1,
        t2: t.t2 + x * a.t2 + y * b.t2,
        t3: t.t3 + x * a.t3 + y * b.t3,
    }
}

// Two rows times the transpose of H.
pub fn rows_across(a: Four, b: Four, h: Eight) -> Four
    ensures { result ≡ rows_across a b h }
{
    Four {
        t0: 0.0 + a.t0 * h.f0.t0 + a.t1 * h.f0.t1 + a.t2 * h.f0.t2 + a.t3 * h.f0.t3,
        t1: 0.0 + a.t0 * h.f1.t0 + a.t1 * h.f1.t1 + a.t2 * h.f1.t2 + a.t3 * h.f1.t3,
        t2: 0.0 + b.t0 * h.f0.t0 + b.t1 * h.f0.t1 + b.t2 * h.f0.t2 + b.t3 * h.f0.t3,
        t3: 0.0 + b.t0 * h.f1.t0 + b.t1 * h.f1.t1 + b.t2 * h.f1.t2 + b.t3 * h.f1.t3,
    }
}

// Two by two times two by two.
pub fn square_times(a: Four, b: Four) -> Four
    ensures { result ≡ square_times a b }
{
    Four {
        t0: 0.0 + a.t0 * b.t0 + a.t1 * b.t2,
        t1: 0.0 + a.t0 * b.t1 + a.t1 * b.t3,
        t2: 0.0 + a.t2 * b.t0 + a.t3 * b.t2,
        t3: 0.0 + a.t2 * b.t1 + a.t3 * b.t3,
    }
}

// A row of two times two rows of four.
pub fn pair_times(a: f32, b: f32, g: Eight) -> Four
    ensures { result ≡ pair_times a b g }
{
    Four {
        t0: 0.0 + a * g.f0.t0 + b * g.f1.t0,
        t1: 0.0 + a * g.f0.t1 + b * g.f1.t1,
        t2: 0.0 + a * g.f0.t2 + b * g.f1.t2,
        t3: 0.0 + a * g.f0.t3 + b * g.f1.t3,
    }
}

// A row times x.
pub fn row_on(h: Four, x: Four) -> f32
    ensures { result ≡ row_dot h x }
{
    h.t0 * x.t0 + h.t1 * x.t1 + h.t2 * x.t2 + h.t3 * x.t3
}

// Four numbers less four others.
pub fn minus(a: Four, b: Four) -> Four
    ensures { result ≡ differences a b }
{
    Four {
        t0: a.t0 - b.t0,
        t1: a.t1 - b.t1,
        t2: a.t2 - b.t2,
        t3: a.t3 - b.t3,
    }
}

// The transpose.
pub fn turned(t: Sixteen) -> Sixteen
    ensures { result ≡ transposed t }
{
    Sixteen {
        f0: Four {
            t0: t.f0.t0,
            t1: t.f1.t0,
            t2: t.f2.t0,
            t3: t.f3.t0,
        },
        f1: Four {
            t0: t.f0.t1,
            t1: t.f1.t1,
            t2: t.f2.t1,
            t3: t.f3.t1,
        },
        f2: Four {
            t0: t.f0.t2,
            t1: t.f1.t2,
            t2: t.f2.t2,
            t3: t.f3.t2,
        },
        f3: Four {
            t0: t.f0.t3,
            t1: t.f1.t3,
            t2: t.f2.t3,
            t3: t.f3.t3,
        },
    }
}

// The matrix that c begins with.
pub fn read_sixteen(c: &[f32]) -> Sixteen
    requires { 16 ≤ length c.now }
    ensures { result ≡ large (cell 4 c.now) }
{
    Sixteen {
        f0: side_by_side::read(c, 0),
        f1: side_by_side::read(c, 4),
        f2: side_by_side::read(c, 8),
        f3: side_by_side::read(c, 12),
    }
}

// Eight numbers, from the front of c on.
pub fn put_eight(c: &mut [f32], t: Eight)
    requires { 8 ≤ length c.old }
    ensures { c.new ≡ grid 2 4 (in_wide t) c.old }
{
    side_by_side::put(c, 0, t.f0);
    side_by_side::put(c, 4, t.f1);
}

// Sixteen numbers, from the front of c on.
pub fn put_sixteen(c: &mut [f32], t: Sixteen)
    requires { 16 ≤ length c.old }
    ensures { c.new ≡ grid 4 4 (in_large t) c.old }
{
    side_by_side::put(c, 0, t.f0);
    side_by_side::put(c, 4, t.f1);
    side_by_side::put(c, 8, t.f2);
    side_by_side::put(c, 12, t.f3);
}
