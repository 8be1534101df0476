// Causes 1 and 2: the counts, and the lengths of the tables that a call is lent.
#![tactic(auto)]

ghost use Rattle.std.specs.Prelude.{◌≡◌, ◌≤◌};
ghost use Rattle.model.specs.Mesh.{mesh_of, max_cells, max_faces};
ghost use Rattle.model.specs.Causes.{◌and_then◌, counts_within, counts, mesh_tables, field_table, call_of, step_long};
ghost use Rattle.model.specs.Claims.{claim_of, claim_long};
ghost use Rattle.model.specs.Answers.{said};

use model::needs::{between, long, need};
use model::{Cause, Refusal, positions};

// Cause 1, with limits that the caller sets: the run program's are lower than the mesh's own.
pub fn counts_within(
    most_cells: usize,
    most_faces: usize,
    cells: usize,
    faces: usize,
) -> Result<(), Refusal>
    ensures { said result ≡ counts_within most_cells most_faces cells faces }
{
    need(
        Cause::Limits,
        0,
        between(1, most_cells as u64, cells as u64),
    )?;
    need(Cause::Limits, 1, faces <= most_faces)
}

// The counts and the mesh tables.
pub fn mesh_lent(
    cells: usize,
    faces: usize,
    volumes: &[u64],
    firsts: &[u64],
    seconds: &[u64],
    shares: &[u64],
    reaches: &[u64],
) -> Result<(), Refusal>
    ensures { said result ≡ (
        counts (mesh_of cells faces volumes.now firsts.now seconds.now shares.now reaches.now)
        and_then mesh_tables (mesh_of cells faces volumes.now firsts.now seconds.now shares.now reaches.now)
        ) }
{
    counts_within(model::MAX_CELLS, model::MAX_FACES, cells, faces)?;
    long(positions::VOLUMES, cells, volumes.len())?;
    long(positions::FIRSTS, faces, firsts.len())?;
    long(positions::SECONDS, faces, seconds.len())?;
    long(positions::SHARES, faces, shares.len())?;
    long(positions::REACHES, faces, reaches.len())
}

// The same with a field.
pub fn field_lent(
    cells: usize,
    faces: usize,
    volumes: &[u64],
    firsts: &[u64],
    seconds: &[u64],
    shares: &[u64],
    reaches: &[u64],
    masses: &[u64],
) -> Result<(), Refusal>
    ensures { said result ≡ (
        counts (mesh_of cells faces volumes.now firsts.now seconds.now shares.now reaches.now)
        and_then mesh_tables (mesh_of cells faces volumes.now firsts.now seconds.now shares.now reaches.now)
        and_then field_table (mesh_of cells faces volumes.now firsts.now seconds.now shares.now
        reaches.now) masses.now
        ) }
{
    mesh_lent(cells, faces, volumes, firsts, seconds, shares, reaches)?;
    long(positions::MASSES, cells, masses.len())
}

// The tables that a step is lent besides. The counts are within their limits, so that the length of work is a number.
pub fn step_lent(
    cells: usize,
    faces: usize,
    fluxes: &[i64],
    outsides: &[u64],
    next: &[u64],
    moved: &[i64],
    work: &[u64],
    releases: &[u64],
) -> Result<(), Refusal>
    requires { (cells ≤ max_cells) × (faces ≤ max_faces) }
    ensures { said result ≡ step_long cells faces
        (call_of fluxes.now outsides.now next.now moved.now work.now releases.now) }
{
    let wanted = model::work_length(cells, faces);
    long(positions::FLUXES, faces, fluxes.len())?;
    long(positions::OUTSIDES, faces, outsides.len())?;
    long(positions::NEXT, cells, next.len())?;
    long(positions::MOVED, faces, moved.len())?;
    long(positions::WORK, wanted, work.len())?;
    long(positions::RELEASES, cells, releases.len())
}

// The tables that a judging is lent besides: those of a step but for work.
pub fn claim_lent(
    cells: usize,
    faces: usize,
    fluxes: &[i64],
    outsides: &[u64],
    next: &[u64],
    claim: &[i64],
    releases: &[u64],
) -> Result<(), Refusal>
    ensures { said result ≡ claim_long cells faces
        (claim_of fluxes.now outsides.now next.now claim.now releases.now) }
{
    long(positions::FLUXES, faces, fluxes.len())?;
    long(positions::OUTSIDES, faces, outsides.len())?;
    long(positions::NEXT, cells, next.len())?;
    long(positions::MOVED, faces, claim.len())?;
    long(positions::RELEASES, cells, releases.len())
}
