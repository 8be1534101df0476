// Document 02, S-5, and P and N of document 01's stage 4: corrections that would smooth are 0, the others are counted.
#![tactic(auto)]

ghost use Rattle.std.specs.Prelude.{◌≡◌, ◌<◌, ◌+◌, ◌*◌, ◌^◌, length, get_or};
ghost use Rattle.model.specs.Mesh.{max_cells};
ghost use Rattle.step_cell.specs.Work.{of_cell, over_q, low_in};
ghost use Rattle.step_smoothing.specs.Corrections.{ends_of, CorrectionsIn};
ghost use Rattle.step_smoothing.specs.Smoothing.{Uncounted, counted, KeepAsks, kept_at, KeptTo};

use lists::raise;
use step_cell::{N, OVER_Q, P};
use step_face::correction::OVER_SIGN;
use step_face::exchange::end_to;

// A cell's low-order q.
pub fn low_of(work: &[u64], c: u64) -> u64
    requires { (4 * c + 3 < length work.now) × (c < max_cells) }
    ensures { result ≡ low_in work.now c }
{
    work[4 * (c as usize) + P] % OVER_Q
}

// A correction counted where it enters, in P, and where it leaves, in N.
pub fn count(work: &mut [u64], size: u64, receiver: u64, giver: u64)
    requires receiver_in_bounds { (4 * receiver + 3 < length work.old) × (receiver < max_cells) × (of_cell work.old receiver 0 + over_q * size < 2 ^ 64) }
    requires giver_in_bounds { (4 * giver + 3 < length work.old) × (giver < max_cells) × (of_cell work.old giver 3 + size < 2 ^ 64) }
    ensures { work.new ≡ counted work.old receiver giver size }
{
    raise(work, 4 * (receiver as usize) + P, OVER_Q * size);
    raise(work, 4 * (giver as usize) + N, size);
}

// One face of the fourth pass, its correction at the given entry. It runs as its own sign says, whichever way the water does.
pub fn keep_at(work: &mut [u64], at: usize, first: u64, second: u64)
    requires { KeepAsks at first second (get_or work.old at 0) work.old }
    ensures { work.new ≡ kept_at work.old at first second (get_or work.old at 0) }
{
    let code = work[at];
    let size = code / OVER_SIGN;
    if size == 0 {
        return;
    }
    let negative = code % 2 == 1;
    let receiver = end_to(negative, first, second);
    let giver = end_to(negative, second, first);
    let from = low_of(work, giver);
    let to = low_of(work, receiver);
    if to < from {
        work[at] = 0;
        return;
    }
    count(work, size, receiver, giver);
}

// Fourth pass: the corrections that are kept, and the sums of those that enter and that leave each cell.
pub fn keep_corrections(
    cells: usize,
    faces: usize,
    firsts: &[u64],
    seconds: &[u64],
    work: &mut [u64],
)
    requires corrections_in { CorrectionsIn (ends_of cells faces firsts.now seconds.now) work.old }
    requires uncounted { Uncounted (ends_of cells faces firsts.now seconds.now) work.old }
    ensures { KeptTo (ends_of cells faces firsts.now seconds.now) work.old faces work.new }
{
    for f in 0..faces {
        keep_at(work, 4 * cells + f, firsts[f], seconds[f]);
    }
}
