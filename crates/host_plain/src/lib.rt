// The plain step on records, for a host program in C.
#![tactic(auto)]

ghost use Rattle.std.specs.Prelude.{◌≡◌};
ghost use Rattle.model.specs.Mesh.{mesh_of, ceiling};
ghost use Rattle.model.specs.Causes.{mesh_values};
ghost use Rattle.record_writing.specs.Writing.{most_of};
ghost use Rattle.host_record_promises.specs.Plain.{PlainIn, PlainOn, PlainTaking, PlainPromise};

use host_numbers::number_of;
use host_taking::take_field;
use model::{RUN_CELLS, RUN_FACES, RUN_WORK, Refusal};
use record_layouts::Width;
use transport::{Crossed, Way};

// A plain step on tables, with the next masses written as a record.
fn written(
    width: Width,
    cells: usize,
    faces: usize,
    volumes: &[u64],
    firsts: &[u64],
    seconds: &[u64],
    shares: &[u64],
    reaches: &[u64],
    masses: &[u64],
    fluxes: &[i64],
    outsides: &[u64],
    releases: &[u64],
    bytes: &mut [u8],
) -> Result<Crossed, Refusal>
    requires { mesh_values (most_of width) (mesh_of cells faces volumes.now firsts.now seconds.now shares.now reaches.now)
        ≡ mesh_values ceiling (mesh_of cells faces volumes.now firsts.now seconds.now shares.now reaches.now) }
    ensures { PlainIn width
        (mesh_of cells faces volumes.now firsts.now seconds.now shares.now reaches.now)
        masses.now fluxes.now outsides.now releases.now bytes.old result bytes.new }
{
    let mut next = [0u64; RUN_CELLS];
    let mut moved = [0i64; RUN_FACES];
    let mut work = [0u64; RUN_WORK];
    let crossed = transport::step(
        Way::Plain,
        cells,
        faces,
        volumes,
        firsts,
        seconds,
        shares,
        reaches,
        masses,
        fluxes,
        outsides,
        &mut next,
        &mut moved,
        &mut work,
        releases,
    )?;
    record_writing::write_field(
        width,
        cells,
        faces,
        volumes,
        firsts,
        seconds,
        shares,
        reaches,
        &next[..cells],
        bytes,
    )?;
    Ok(crossed)
}

// The step record, on a mesh and a field that have been taken.
fn on_field(
    width: Width,
    cells: usize,
    faces: usize,
    volumes: &[u64],
    firsts: &[u64],
    seconds: &[u64],
    shares: &[u64],
    reaches: &[u64],
    masses: &[u64],
    step: &[u8],
    bytes: &mut [u8],
) -> Result<Crossed, Refusal>
    requires { mesh_values (most_of width) (mesh_of cells faces volumes.now firsts.now seconds.now shares.now reaches.now)
        ≡ mesh_values ceiling (mesh_of cells faces volumes.now firsts.now seconds.now shares.now reaches.now) }
    ensures { PlainOn width
        (mesh_of cells faces volumes.now firsts.now seconds.now shares.now reaches.now)
        masses.now step.now bytes.old result bytes.new }
{
    let mut fluxes = [0i64; RUN_FACES];
    let mut outsides = [0u64; RUN_FACES];
    let mut releases = [0u64; RUN_CELLS];
    record_reading::read_step(
        width,
        cells,
        faces,
        seconds,
        step,
        &mut fluxes,
        &mut outsides,
        &mut releases,
    )?;
    written(
        width,
        cells,
        faces,
        volumes,
        firsts,
        seconds,
        shares,
        reaches,
        masses,
        &fluxes[..faces],
        &outsides[..faces],
        &releases[..cells],
        bytes,
    )
}

// The three records in their order.
fn on_records(mesh: &[u8], field: &[u8], step: &[u8], bytes: &mut [u8]) -> Result<Crossed, Refusal>
    ensures { PlainTaking mesh.now field.now step.now bytes.old result bytes.new }
{
    let mut volumes = [0u64; RUN_CELLS];
    let mut firsts = [0u64; RUN_FACES];
    let mut seconds = [0u64; RUN_FACES];
    let mut shares = [0u64; RUN_FACES];
    let mut reaches = [0u64; RUN_FACES];
    let mut masses = [0u64; RUN_CELLS];
    let counts = take_field(
        mesh,
        field,
        &mut volumes,
        &mut firsts,
        &mut seconds,
        &mut shares,
        &mut reaches,
        &mut masses,
    )?;
    let cells = counts.cells;
    let faces = counts.faces;
    let width = counts.width;
    on_field(
        width,
        cells,
        faces,
        &volumes[..cells],
        &firsts[..faces],
        &seconds[..faces],
        &shares[..faces],
        &reaches[..faces],
        &masses[..cells],
        step,
        bytes,
    )
}

// The plain step on a mesh, a field and a step record; the next field record goes into `next`.
#[unsafe(no_mangle)]
pub extern "C" fn lagoon_plain_step(mesh: &[u8], field: &[u8], step: &[u8], next: &mut [u8]) -> u64
    ensures { PlainPromise mesh.now field.now step.now next.old result next.new }
{
    let a = on_records(mesh, field, step, next);
    match a {
        Err(refusal) => number_of(refusal),
        Ok(_) => 0,
    }
}
