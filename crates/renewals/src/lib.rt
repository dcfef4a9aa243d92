// The last step of a correction, for the crates above, which have tested sizes and buffers; not for
// users: x and P anew, where they are finite.
#![tactic(auto)]

ghost use Rattle.std.specs.Prelude.{◌≡◌, ◌*◌, ◌≤◌, length};
ghost use Rattle.std.specs.Float.{binary32};
ghost use Rattle.std.specs.Float.Ieee.{sub};
ghost use Rattle.answers.specs.Answers.{settled};
ghost use Rattle.grids.specs.Grid.{cell, run, grid};
ghost use Rattle.entries.specs.Entries.{times, numbers};
ghost use Rattle.filters.specs.Correction.{new_x};
ghost use Rattle.filters.specs.Corrected.{finite_answer};

use answers::{Answer, Refusal};

// temp_KHP = K·temp_HP; and x = x + K·y and P = P − temp_KHP where every number of both is finite, else
// refusal 9, and they are as lent. K·y waits in an array of its own, so nothing is written before all
// is tested.
pub fn renew_cells(
    n: usize,
    m: usize,
    x: &mut [f32],
    p: &mut [f32],
    y: &[f32],
    k: &[f32],
    temp_hp: &[f32],
    temp_khp: &mut [f32],
) -> Answer
    requires { (1 ≤ m) × (n ≤ 16) × (n ≤ length x.old) × (n * n ≤ length p.old) × (m ≤ length y.now) × (n * m ≤ length k.now) × (m * n ≤ length temp_hp.now) × (n * n ≤ length temp_khp.old) × (1 ≤ n) × (m ≤ 16) }
    ensures answer { result ≡ finite_answer n (new_x binary32 m (cell m k.now) (numbers x.old) (numbers y.now)) (λ i j. sub binary32 (cell n p.old i j) (times binary32 m (cell m k.now) (cell n temp_hp.now) i j)) }
    ensures x { x.new ≡ settled result (run 0 n (new_x binary32 m (cell m k.now) (numbers x.old) (numbers y.now)) x.old) x.old }
    ensures khp { temp_khp.new ≡ grid n n (times binary32 m (cell m k.now) (cell n temp_hp.now)) temp_khp.old }
    ensures p { p.new ≡ settled result (grid n n (λ i j. sub binary32 (cell n p.old i j) (times binary32 m (cell m k.now) (cell n temp_hp.now) i j)) p.old) p.old }
{
    let mut ky = [0.0; 16];
    times_vector::rowvector_cells(n, m, &*k, &*y, &mut ky);
    times_matrix::mult_cells(n, m, n, &*k, &*temp_hp, temp_khp);
    if finite::sums_finite(n, x, &ky) && finite::differences_finite(n * n, p, temp_khp) {
        sums::cores::add_cells_a(n, x, &ky);
        sums::cores::sub_cells_a(n * n, p, temp_khp);
        return Ok(());
    }
    Err(Refusal::NotFinite)
}
