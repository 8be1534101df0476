// Document 02's S-11 on records, for a host program in C: another model's step judged by what it claims to have moved.
#![tactic(auto)]

ghost use Rattle.std.specs.Prelude.{◌≡◌};
ghost use Rattle.model.specs.Mesh.{mesh_of, ceiling};
ghost use Rattle.model.specs.Causes.{mesh_values};
ghost use Rattle.record_writing.specs.Writing.{most_of};
ghost use Rattle.host_record_promises.specs.Judge.{JudgedIn, JudgedOn, JudgedTaking, JudgedFromC};

use host_tables::answered;
use host_taking::take_field;
use model::{RUN_CELLS, RUN_FACES, Refusal};
use record_layouts::Width;
use transport::Crossed;

// A claim judged on tables, with the next masses written as a record.
fn written(
    width: Width,
    cells: usize,
    faces: usize,
    volumes: &[u64],
    firsts: &[u64],
    seconds: &[u64],
    shares: &[u64],
    reaches: &[u64],
    masses: &[u64],
    fluxes: &[i64],
    outsides: &[u64],
    releases: &[u64],
    claim: &[i64],
    bytes: &mut [u8],
) -> Result<Crossed, Refusal>
    requires { mesh_values (most_of width) (mesh_of cells faces volumes.now firsts.now seconds.now shares.now reaches.now)
        ≡ mesh_values ceiling (mesh_of cells faces volumes.now firsts.now seconds.now shares.now reaches.now) }
    ensures { JudgedIn width
        (mesh_of cells faces volumes.now firsts.now seconds.now shares.now reaches.now)
        masses.now fluxes.now outsides.now releases.now claim.now
        bytes.old result bytes.new }
{
    let mut next = [0u64; RUN_CELLS];
    let crossed = judging::judge(
        cells, faces, volumes, firsts, seconds, shares, reaches, masses, fluxes, outsides,
        &mut next, claim, releases,
    )?;
    record_writing::write_field(
        width,
        cells,
        faces,
        volumes,
        firsts,
        seconds,
        shares,
        reaches,
        &next[..cells],
        bytes,
    )?;
    Ok(crossed)
}

// The step record, on a mesh and a field that have been taken.
fn on_field(
    width: Width,
    cells: usize,
    faces: usize,
    volumes: &[u64],
    firsts: &[u64],
    seconds: &[u64],
    shares: &[u64],
    reaches: &[u64],
    masses: &[u64],
    step: &[u8],
    claim: &[i64],
    bytes: &mut [u8],
) -> Result<Crossed, Refusal>
    requires { mesh_values (most_of width) (mesh_of cells faces volumes.now firsts.now seconds.now shares.now reaches.now)
        ≡ mesh_values ceiling (mesh_of cells faces volumes.now firsts.now seconds.now shares.now reaches.now) }
    ensures { JudgedOn width
        (mesh_of cells faces volumes.now firsts.now seconds.now shares.now reaches.now)
        masses.now step.now claim.now bytes.old result bytes.new }
{
    let mut fluxes = [0i64; RUN_FACES];
    let mut outsides = [0u64; RUN_FACES];
    let mut releases = [0u64; RUN_CELLS];
    record_reading::read_step(
        width,
        cells,
        faces,
        seconds,
        step,
        &mut fluxes,
        &mut outsides,
        &mut releases,
    )?;
    written(
        width,
        cells,
        faces,
        volumes,
        firsts,
        seconds,
        shares,
        reaches,
        masses,
        &fluxes[..faces],
        &outsides[..faces],
        &releases[..cells],
        claim,
        bytes,
    )
}

// The three records in their order.
fn on_records(
    mesh: &[u8],
    field: &[u8],
    step: &[u8],
    claim: &[i64],
    bytes: &mut [u8],
) -> Result<Crossed, Refusal>
    ensures { JudgedTaking mesh.now field.now step.now claim.now
        bytes.old result bytes.new }
{
    let mut volumes = [0u64; RUN_CELLS];
    let mut firsts = [0u64; RUN_FACES];
    let mut seconds = [0u64; RUN_FACES];
    let mut shares = [0u64; RUN_FACES];
    let mut reaches = [0u64; RUN_FACES];
    let mut masses = [0u64; RUN_CELLS];
    let counts = take_field(
        mesh,
        field,
        &mut volumes,
        &mut firsts,
        &mut seconds,
        &mut shares,
        &mut reaches,
        &mut masses,
    )?;
    let cells = counts.cells;
    let faces = counts.faces;
    let width = counts.width;
    on_field(
        width,
        cells,
        faces,
        &volumes[..cells],
        &firsts[..faces],
        &seconds[..faces],
        &shares[..faces],
        &reaches[..faces],
        &masses[..cells],
        step,
        claim,
        bytes,
    )
}

// Another model's step on a mesh, a field and a step record; the next field record goes into `next`.
#[unsafe(no_mangle)]
pub extern "C" fn lagoon_judge(
    mesh: &[u8],
    field: &[u8],
    step: &[u8],
    claim: &[i64],
    next: &mut [u8],
    found: &mut [u64],
) -> u64
    ensures { JudgedFromC mesh.now field.now step.now claim.now next.old found.old result
        next.new found.new }
{
    let answer = on_records(mesh, field, step, claim, next);
    answered(answer, found)
}
