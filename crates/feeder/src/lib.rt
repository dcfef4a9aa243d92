// The feeder's filter: two states, the yarn's tension and how far it drifts in a step.
#![tactic(auto)]

ghost use Rattle.std.specs.Prelude.{◌≡◌};
ghost use Rattle.feeder.specs.Feeder.{at_start, tension_of, forecast, Took};

use answers::Answer;

// The estimate x, in cN and cN a step, and its covariance P, row-major.
#[derive(Clone, Copy)]
pub struct Feeder {
    pub x: [f32; 2],
    pub p: [f32; 4],
}

// Where the shift starts: the tension that the feeder was set to, and no drift.
pub fn start() -> Feeder
    ensures { result ≡ at_start }
{
    Feeder {
        x: [35.0, 0.0],
        p: [9.0, 0.0, 0.0, 0.25],
    }
}

// The feeder one step on: the tension moves by its drift.
pub fn predict(f: Feeder) -> Feeder
    ensures { result ≡ forecast f }
{
    let mut x = f.x;
    let mut p = f.p;
    let a = [1.0, 1.0, 0.0, 1.0];
    let q = [0.02, 0.0, 0.0, 0.001];
    let mut predicted = [0.0; 2];
    let mut temp = [0.0; 4];
    // The sizes are taken and the arrays hold their matrices, so this is never refused.
    let _ = kalman::predict(2, &mut x, &a, &mut p, &q, &mut predicted, &mut temp);
    Feeder { x, p }
}

// What a correction said, and the feeder after it.
#[derive(Clone, Copy)]
pub struct Corrected {
    pub answer: Answer,
    pub after: Feeder,
}

// The feeder f after the reading z with the noise r, or f as it is where the reading is refused.
pub fn correct(f: Feeder, z: f32, r: f32) -> Corrected
    ensures { Took f z r result.answer result.after }
{
    let mut x = f.x;
    let mut p = f.p;
    let h = [1.0, 0.0];
    let zs = [z];
    let rs = [r];
    let mut y = [0.0];
    let mut s = [0.0];
    let mut k = [0.0; 2];
    let mut s_inv = [0.0];
    let mut hp = [0.0; 2];
    let mut pht = [0.0; 2];
    let mut khp = [0.0; 4];
    let answer = readings::correct(
        2, 1, &mut x, &mut p, &h, &zs, &rs, &mut y, &mut s, &mut k, &mut s_inv, &mut hp, &mut pht,
        &mut khp,
    );
    let after = Feeder { x, p };
    Corrected { answer, after }
}

// The estimate of the tension.
pub fn tension(f: Feeder) -> f32
    ensures { result ≡ tension_of f }
{
    let x = f.x;
    x[0]
}
