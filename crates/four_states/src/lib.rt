// The prediction of four states, row by row on values, for the crate above, which has tested sizes and
// buffers; not for users. Every operand is read first and every result stored last; each sum has the
// start and the order of its definition. A function that is called once, however large, is compiled into
// its caller, and so is a small one: each product has a function of its own, in halves of rows.
#![tactic(auto)]

ghost use Rattle.std.specs.Prelude.{◌≡◌, ◌≤◌, length};
ghost use Rattle.std.specs.Float.{binary32};
ghost use Rattle.grids.specs.Grid.{run, grid};
ghost use Rattle.filters.specs.Prediction.{predicted_x, temp_p, predicted_p};
ghost use Rattle.four_states.specs.Steps.{all_on, all_times, all_plus};

use side_by_side::{Four, Sixteen};

// a·x.
fn all_on(a: Sixteen, x: Four) -> Four
    ensures { result ≡ all_on a x }
{
    Four {
        t0: four_values::row_on(a.f0, x),
        t1: four_values::row_on(a.f1, x),
        t2: four_values::row_on(a.f2, x),
        t3: four_values::row_on(a.f3, x),
    }
}

// a·p.
fn all_times(a: Sixteen, p: Sixteen) -> Sixteen
    ensures { result ≡ all_times a p }
{
    let none = Four {
        t0: 0.0,
        t1: 0.0,
        t2: 0.0,
        t3: 0.0,
    };
    let h0 = four_values::with_two(none, a.f0.t0, p.f0, a.f0.t1, p.f1);
    let r0 = four_values::with_two(h0, a.f0.t2, p.f2, a.f0.t3, p.f3);
    let h1 = four_values::with_two(none, a.f1.t0, p.f0, a.f1.t1, p.f1);
    let r1 = four_values::with_two(h1, a.f1.t2, p.f2, a.f1.t3, p.f3);
    let h2 = four_values::with_two(none, a.f2.t0, p.f0, a.f2.t1, p.f1);
    let r2 = four_values::with_two(h2, a.f2.t2, p.f2, a.f2.t3, p.f3);
    let h3 = four_values::with_two(none, a.f3.t0, p.f0, a.f3.t1, p.f1);
    let r3 = four_values::with_two(h3, a.f3.t2, p.f2, a.f3.t3, p.f3);
    Sixteen {
        f0: r0,
        f1: r1,
        f2: r2,
        f3: r3,
    }
}

// a·p, and q on top.
fn times_plus(a: Sixteen, p: Sixteen, q: Sixteen) -> Sixteen
    ensures { result ≡ all_plus (all_times a p) q }
{
    let none = Four {
        t0: 0.0,
        t1: 0.0,
        t2: 0.0,
        t3: 0.0,
    };
    let h0 = four_values::with_two(none, a.f0.t0, p.f0, a.f0.t1, p.f1);
    let r0 = four_values::with_two(h0, a.f0.t2, p.f2, a.f0.t3, p.f3);
    let h1 = four_values::with_two(none, a.f1.t0, p.f0, a.f1.t1, p.f1);
    let r1 = four_values::with_two(h1, a.f1.t2, p.f2, a.f1.t3, p.f3);
    let h2 = four_values::with_two(none, a.f2.t0, p.f0, a.f2.t1, p.f1);
    let r2 = four_values::with_two(h2, a.f2.t2, p.f2, a.f2.t3, p.f3);
    let h3 = four_values::with_two(none, a.f3.t0, p.f0, a.f3.t1, p.f1);
    let r3 = four_values::with_two(h3, a.f3.t2, p.f2, a.f3.t3, p.f3);
    Sixteen {
        f0: side_by_side::plus(r0, q.f0),
        f1: side_by_side::plus(r1, q.f1),
        f2: side_by_side::plus(r2, q.f2),
        f3: side_by_side::plus(r3, q.f3),
    }
}

// x, P, predicted_x and temp_P of four states.
pub fn predict_four(
    x: &mut [f32],
    a: &[f32],
    p: &mut [f32],
    q: &[f32],
    predicted: &mut [f32],
    temp: &mut [f32],
)
    requires { (4 ≤ length x.old) × (16 ≤ length a.now) × (16 ≤ length p.old) × (16 ≤ length q.now) × (4 ≤ length predicted.old) × (16 ≤ length temp.old) }
    ensures x { x.new ≡ run 0 4 (predicted_x binary32 4 a.now x.old) x.old }
    ensures predicted { predicted.new ≡ run 0 4 (predicted_x binary32 4 a.now x.old) predicted.old }
    ensures p { p.new ≡ grid 4 4 (predicted_p binary32 4 a.now p.old q.now) p.old }
    ensures temp { temp.new ≡ grid 4 4 (temp_p binary32 4 a.now p.old) temp.old }
{
    let m = four_values::read_sixteen(a);
    let next = all_on(m, side_by_side::read(&*x, 0));
    let t = all_times(m, four_values::read_sixteen(&*p));
    let n = times_plus(t, four_values::turned(m), four_values::read_sixteen(q));
    side_by_side::put(x, 0, next);
    side_by_side::put(predicted, 0, next);
    four_values::put_sixteen(temp, t);
    four_values::put_sixteen(p, n);
}
