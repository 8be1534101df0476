// Cause 22: no cell gives what it has not, and each next concentration is within the bounds of its neighbourhood.
#![tactic(auto)]

ghost use Rattle.std.specs.Prelude.{◌≡◌, ◌≤◌, ◌<◌, ◌+◌, ◌*◌, ◌^◌, length};
ghost use Rattle.lists.specs.Table.{table};
ghost use Rattle.model.specs.Mesh.{max_cells};
ghost use Rattle.model.specs.Causes.{each};
ghost use Rattle.model.specs.Claims.{bounds_fit};
ghost use Rattle.model.specs.Answers.{said};
ghost use Rattle.check_flows.specs.Flows.{FacesFit, LongEnough};
ghost use Rattle.judging_bounds.specs.Bounds.{holds as holds_of, bounds_at, entry, Salted, Summed, Bordered, bounds_verdict};

use check_flows::gather;
use model::needs::between;
use model::{Cause, ENDS, Refusal};
use step_cell::{HI, LO};

// What a cell holds once its release is added.
pub fn holds(c: usize, masses: &[u64], releases: &[u64]) -> u64
    requires { (c < length masses.now) × (c < length releases.now) × (holds_of masses.now releases.now c < 2 ^ 64) }
    ensures { result ≡ holds_of masses.now releases.now c }
{
    masses[c] + releases[c]
}

// One cell.
fn bounds_fit(volume: u64, least: u64, most: u64, mass: u64, enters: u64, leaves: u64) -> bool
    requires { (1 ≤ volume) × (mass + enters < 2 ^ 64) }
    ensures { result ≡ bounds_fit volume least most mass enters leaves }
{
    let has = mass + enters;
    if has < leaves {
        return false;
    }
    between(least, most, (has - leaves) / volume)
}

// The same of a cell of tables.
fn cell_fits(
    c: usize,
    cells: usize,
    volumes: &[u64],
    masses: &[u64],
    releases: &[u64],
    work: &[u64],
    enters: &[u64],
    leaves: &[u64],
) -> bool
    requires c_lt_cells { c < cells }
    requires salted { Salted cells masses.now releases.now × Bordered cells volumes.now work.now × Summed cells enters.now leaves.now }
    ensures { result ≡ bounds_at volumes.now masses.now releases.now work.now
        (entry enters.now) (entry leaves.now) c }
{
    let mass = holds(c, masses, releases);
    let least = work[4 * c + LO];
    let most = work[4 * c + HI];
    bounds_fit(volumes[c], least, most, mass, enters[c], leaves[c])
}

// All cells, by what enters and leaves each.
fn bounds_good(
    cells: usize,
    volumes: &[u64],
    masses: &[u64],
    releases: &[u64],
    work: &[u64],
    enters: &[u64],
    leaves: &[u64],
) -> Result<(), Refusal>
    requires { Salted cells masses.now releases.now × Bordered cells volumes.now work.now × Summed cells enters.now leaves.now }
    ensures { said result ≡ each 22 cells (bounds_at volumes.now masses.now releases.now work.now
        (entry enters.now) (entry leaves.now)) }
{
    for c in 0..cells {
        if !cell_fits(c, cells, volumes, masses, releases, work, enters, leaves) {
            return Err(Refusal {
                cause: Cause::Bounds,
                place: c as u64,
            });
        }
    }
    Ok(())
}

// Cause 22, on arrays of zeros.
fn values_in(
    cells: usize,
    faces: usize,
    volumes: &[u64],
    firsts: &[u64],
    seconds: &[u64],
    masses: &[u64],
    claim: &[i64],
    releases: &[u64],
    work: &[u64],
    enters: &mut [u64],
    leaves: &mut [u64],
) -> Result<(), Refusal>
    requires long_enough { LongEnough faces firsts.now seconds.now claim.now cells volumes.now }
    requires faces_fit { FacesFit faces firsts.now seconds.now claim.now }
    requires salted { Salted cells masses.now releases.now × Bordered cells volumes.now work.now }
    requires enters_value { (enters.old ≡ table (max_cells + 1) (λ c. 0)) × (leaves.old ≡ table (max_cells + 1) (λ c. 0)) }
    ensures { said result ≡ bounds_verdict cells faces volumes.now firsts.now seconds.now masses.now
        claim.now releases.now work.now }
{
    gather(faces, firsts, seconds, claim, enters, leaves);
    bounds_good(cells, volumes, masses, releases, work, enters, leaves)
}

// The same, with arrays of its own: no table is written.
pub fn values(
    cells: usize,
    faces: usize,
    volumes: &[u64],
    firsts: &[u64],
    seconds: &[u64],
    masses: &[u64],
    claim: &[i64],
    releases: &[u64],
    work: &[u64],
) -> Result<(), Refusal>
    requires long_enough { LongEnough faces firsts.now seconds.now claim.now cells volumes.now }
    requires faces_fit { FacesFit faces firsts.now seconds.now claim.now }
    requires salted { Salted cells masses.now releases.now × Bordered cells volumes.now work.now }
    ensures { said result ≡ bounds_verdict cells faces volumes.now firsts.now seconds.now masses.now
        claim.now releases.now work.now }
{
    let mut enters = [0u64; ENDS];
    let mut leaves = [0u64; ENDS];
    values_in(
        cells,
        faces,
        volumes,
        firsts,
        seconds,
        masses,
        claim,
        releases,
        work,
        &mut enters,
        &mut leaves,
    )
}
