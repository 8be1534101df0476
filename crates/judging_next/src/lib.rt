// The next masses by a claim that has passed causes 21 and 22.
#![tactic(auto)]

ghost use Rattle.std.specs.Prelude.{◌≡◌, ◌≤◌, ◌<◌, ◌+◌, length};
ghost use Rattle.lists.specs.Table.{table, over};
ghost use Rattle.model.specs.Mesh.{max_cells};
ghost use Rattle.check_flows.specs.Flows.{inflow, outflow, FacesFit, LongEnough};
ghost use Rattle.judging_bounds.specs.Bounds.{next_at, entry, Affords, Salted, Summed};

use check_flows::gather;
use judging_bounds::holds;
use model::ENDS;

// One cell's.
fn next_of(
    c: usize,
    cells: usize,
    masses: &[u64],
    releases: &[u64],
    enters: &[u64],
    leaves: &[u64],
) -> u64
    requires c_lt_cells { c < cells }
    requires salted { Salted cells masses.now releases.now × Summed cells enters.now leaves.now }
    requires affords { Affords cells masses.now releases.now (entry enters.now) (entry leaves.now) }
    ensures { result ≡ next_at masses.now releases.now (entry enters.now) (entry leaves.now) c }
{
    let mass = holds(c, masses, releases);
    mass + enters[c] - leaves[c]
}

// All cells', by what enters and leaves each.
fn fill(
    cells: usize,
    masses: &[u64],
    releases: &[u64],
    enters: &[u64],
    leaves: &[u64],
    next: &mut [u64],
)
    requires cells_in_bounds { cells ≤ length next.old }
    requires salted { Salted cells masses.now releases.now × Summed cells enters.now leaves.now }
    requires affords { Affords cells masses.now releases.now (entry enters.now) (entry leaves.now) }
    ensures { next.new ≡ over (table cells (next_at masses.now releases.now (entry enters.now)
        (entry leaves.now)))
        next.old }
{
    for c in 0..cells {
        next[c] = next_of(c, cells, masses, releases, enters, leaves);
    }
}

// The same, on arrays of zeros.
fn fill_in(
    cells: usize,
    faces: usize,
    volumes: &[u64],
    firsts: &[u64],
    seconds: &[u64],
    masses: &[u64],
    claim: &[i64],
    releases: &[u64],
    next: &mut [u64],
    enters: &mut [u64],
    leaves: &mut [u64],
)
    requires cells_in_bounds { cells ≤ length next.old }
    requires long_enough { LongEnough faces firsts.now seconds.now claim.now cells volumes.now }
    requires faces_fit { FacesFit faces firsts.now seconds.now claim.now }
    requires salted { Salted cells masses.now releases.now }
    requires affords { Affords cells masses.now releases.now (inflow faces firsts.now seconds.now claim.now)
        (outflow faces firsts.now seconds.now claim.now) }
    requires enters_value { (enters.old ≡ table (max_cells + 1) (λ c. 0)) × (leaves.old ≡ table (max_cells + 1) (λ c. 0)) }
    ensures { next.new ≡ over (table cells (next_at masses.now releases.now
        (inflow faces firsts.now seconds.now claim.now)
        (outflow faces firsts.now seconds.now claim.now)))
        next.old }
{
    gather(faces, firsts, seconds, claim, enters, leaves);
    fill(cells, masses, releases, enters, leaves, next);
}

// The same, with arrays of its own.
pub fn values(
    cells: usize,
    faces: usize,
    volumes: &[u64],
    firsts: &[u64],
    seconds: &[u64],
    masses: &[u64],
    claim: &[i64],
    releases: &[u64],
    next: &mut [u64],
)
    requires cells_in_bounds { cells ≤ length next.old }
    requires long_enough { LongEnough faces firsts.now seconds.now claim.now cells volumes.now }
    requires faces_fit { FacesFit faces firsts.now seconds.now claim.now }
    requires salted { Salted cells masses.now releases.now }
    requires affords { Affords cells masses.now releases.now (inflow faces firsts.now seconds.now claim.now)
        (outflow faces firsts.now seconds.now claim.now) }
    ensures { next.new ≡ over (table cells (next_at masses.now releases.now
        (inflow faces firsts.now seconds.now claim.now)
        (outflow faces firsts.now seconds.now claim.now)))
        next.old }
{
    let mut enters = [0u64; ENDS];
    let mut leaves = [0u64; ENDS];
    fill_in(
        cells,
        faces,
        volumes,
        firsts,
        seconds,
        masses,
        claim,
        releases,
        next,
        &mut enters,
        &mut leaves,
    )
}
