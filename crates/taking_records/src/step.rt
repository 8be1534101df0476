// A step record.
ghost use Rattle.std.specs.Prelude.{◌≡◌, true, length};
ghost use Rattle.model.specs.Mesh.{mesh_of, run_cells, run_faces, ceiling};
ghost use Rattle.model.specs.Causes.{fine, work_entries, mesh_values};
ghost use Rattle.taking.specs.Taking.{StepTaking};
ghost use Rattle.taking.specs.Inner.{SteppedIn};

use model::{Printed, RUN_CELLS, RUN_FACES, RUN_WORK, Refusal};
use record_layouts::Width;

// A step through water that has been read: the masses become the next ones, unless it is refused. What the lent tables of results and work
// hold is no matter, before or after.
fn stepped(
    known: bool,
    cells: usize,
    faces: usize,
    volumes: &[u64],
    firsts: &[u64],
    seconds: &[u64],
    shares: &[u64],
    reaches: &[u64],
    masses: &mut [u64],
    fluxes: &[i64],
    outsides: &[u64],
    released: &[u64],
    next: &mut [u64],
    moved: &mut [i64],
    work: &mut [u64],
) -> Result<Printed, Refusal>
    requires next_len { (length next.old ≡ run_cells) × (length moved.old ≡ run_faces) × (length work.old ≡ work_entries run_cells run_faces) }
    requires reaches_value { known ≡ true → mesh_values ceiling (mesh_of cells faces volumes.now firsts.now seconds.now shares.now reaches.now) ≡ fine }
    ensures { SteppedIn (mesh_of cells faces volumes.now firsts.now seconds.now shares.now
        reaches.now)
        masses.old fluxes.now outsides.now released.now result masses.new }
{
    let crossing = transport::step_in(
        known, cells, faces, volumes, firsts, seconds, shares, reaches, masses, fluxes, outsides,
        next, moved, work, released,
    )?;
    lists::copy(&next[..cells], masses);
    Ok(Printed {
        entered: crossing.entered,
        gone: crossing.gone,
        total: checks::field::sum_of(cells, masses),
        released: crossing.released,
    })
}

// A step record on a mesh and a field, which are judged with it, in lent tables as long as the run's limits, whose entries are no matter. Of a
// mesh that is known to be accepted the values are not judged again.
pub fn take_step_in(
    known: bool,
    width: Width,
    cells: usize,
    faces: usize,
    bytes: &[u8],
    volumes: &[u64],
    firsts: &[u64],
    seconds: &[u64],
    shares: &[u64],
    reaches: &[u64],
    masses: &mut [u64],
    fluxes: &mut [i64],
    outsides: &mut [u64],
    releases: &mut [u64],
    next: &mut [u64],
    moved: &mut [i64],
    work: &mut [u64],
) -> Result<Printed, Refusal>
    requires fluxes_len { (length fluxes.old ≡ run_faces) × (length outsides.old ≡ run_faces) × (length releases.old ≡ run_cells) }
    requires next_len { (length next.old ≡ run_cells) × (length moved.old ≡ run_faces) × (length work.old ≡ work_entries run_cells run_faces) }
    requires reaches_value { known ≡ true → mesh_values ceiling (mesh_of cells faces volumes.now firsts.now seconds.now shares.now reaches.now) ≡ fine }
    ensures { StepTaking width (mesh_of cells faces volumes.now firsts.now seconds.now shares.now
        reaches.now)
        masses.old bytes.now result masses.new }
{
    record_reading::read_step(
        width, cells, faces, seconds, bytes, fluxes, outsides, releases,
    )?;
    stepped(
        known,
        cells,
        faces,
        volumes,
        firsts,
        seconds,
        shares,
        reaches,
        masses,
        &fluxes[..faces],
        &outsides[..faces],
        &releases[..cells],
        next,
        moved,
        work,
    )
}

// The same in tables of its own.
pub fn take_step(
    width: Width,
    cells: usize,
    faces: usize,
    bytes: &[u8],
    volumes: &[u64],
    firsts: &[u64],
    seconds: &[u64],
    shares: &[u64],
    reaches: &[u64],
    masses: &mut [u64],
) -> Result<Printed, Refusal>
    ensures { StepTaking width (mesh_of cells faces volumes.now firsts.now seconds.now shares.now
        reaches.now)
        masses.old bytes.now result masses.new }
{
    let mut fluxes = [0i64; RUN_FACES];
    let mut outsides = [0u64; RUN_FACES];
    let mut releases = [0u64; RUN_CELLS];
    let mut next = [0u64; RUN_CELLS];
    let mut moved = [0i64; RUN_FACES];
    let mut work = [0u64; RUN_WORK];
    take_step_in(
        false,
        width,
        cells,
        faces,
        bytes,
        volumes,
        firsts,
        seconds,
        shares,
        reaches,
        masses,
        &mut fluxes,
        &mut outsides,
        &mut releases,
        &mut next,
        &mut moved,
        &mut work,
    )
}
