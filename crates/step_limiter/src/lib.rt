// Stages 3 to 5 of document 01: what cells may gain and lose, and the corrections cut to it. Low-order q of S-5 is found with the former.
#![tactic(auto)]

ghost use Rattle.std.specs.Prelude.{◌≡◌, ℕ, ◌≤◌, ◌<◌, ◌+◌, ◌*◌, min, length, get_or};
ghost use Rattle.model.specs.Step.{portion as portion_of};
ghost use Rattle.model.specs.Mesh.{max_cells};
ghost use Rattle.step_cell.specs.Work.{of_cell, entering_in, CellAsks};
ghost use Rattle.step_smoothing.specs.Corrections.{ends_of};
ghost use Rattle.step_limiter.specs.Limiter.{Allowances, CutAsks, CutDone, LimitAsks, Limited};

use step_cell::{G, L, N, OVER_Q, P, allowance_at, least_of};
use step_face::correction::OVER_SIGN;
use step_face::exchange::{end_to, transfer};
use step_portion::portion;

// Third pass: low-order q of each cell, and what it may lose and gain.
pub fn allowances(cells: usize, volumes: &[u64], next: &[u64], work: &mut [u64])
    requires cells_le_max_cells { (cells ≤ max_cells) × (cells ≤ length volumes.now) × (cells ≤ length next.now) × (4 * cells ≤ length work.old) }
    requires by_index { (c : ℕ) → c < cells → CellAsks (get_or volumes.now c 0) (get_or next.now c 0) (of_cell work.old c 1) (of_cell work.old c 2) }
    ensures { Allowances volumes.now next.now work.old cells work.new }
{
    for c in 0..cells {
        allowance_at(work, c, volumes[c], next[c]);
    }
}

// The size that the limiter cuts a correction to: what the receiver may gain, and what the giver may lose.
pub fn cut(work: &[u64], size: u64, receiver: usize, giver: usize) -> u64
    requires receiver_in_bounds { (4 * receiver + 3 < length work.now) × (receiver < max_cells) }
    requires giver_in_bounds { (4 * giver + 3 < length work.now) × (giver < max_cells) }
    ensures { result ≡ min (portion_of size (of_cell work.now receiver 2) (entering_in work.now receiver))
        (portion_of size (of_cell work.now giver 1) (of_cell work.now giver 3)) }
{
    let entering = work[4 * receiver + P] / OVER_Q;
    let gained = portion(size, work[4 * receiver + G], entering);
    let lost = portion(size, work[4 * giver + L], work[4 * giver + N]);
    least_of(gained, lost)
}

// One face of the limiter: its correction, cut, joins what the water carried.
pub fn limit_face(
    f: usize,
    first: u64,
    second: u64,
    code: u64,
    next: &mut [u64],
    moved: &mut [i64],
    work: &[u64],
)
    requires { CutAsks f first second code next.old moved.old work.now }
    ensures { CutDone f first second code work.now next.old next.new moved.old moved.new }
{
    let size = code / OVER_SIGN;
    if size == 0 {
        return;
    }
    let negative = code % 2 == 1;
    let receiver = end_to(negative, first, second);
    let giver = end_to(negative, second, first);
    let amount = cut(work, size, receiver as usize, giver as usize);
    signed::add_at(moved, f, negative, amount);
    transfer(next, first, second, negative, amount);
}

// Fifth pass: the limited corrections.
pub fn limit(
    cells: usize,
    faces: usize,
    firsts: &[u64],
    seconds: &[u64],
    next: &mut [u64],
    moved: &mut [i64],
    work: &[u64],
)
    requires { LimitAsks (ends_of cells faces firsts.now seconds.now) next.old moved.old work.now }
    ensures { Limited (ends_of cells faces firsts.now seconds.now) work.now next.old moved.old
        faces next.new moved.new }
{
    for f in 0..faces {
        let code = work[4 * cells + f];
        limit_face(f, firsts[f], seconds[f], code, next, moved, work);
    }
}
