// The host's call where nothing is refused: each record is read once into tables of the call's own, and mesh, field and step are judged
// together, by the step. What is refused, and by which cause, is told by the crates that take the records one by one.
#![tactic(auto)]

ghost use Rattle.std.specs.Prelude.{◌≡◌};
ghost use Rattle.model.specs.Mesh.{mesh_of, ceiling};
ghost use Rattle.model.specs.Causes.{call_of, mesh_values};
ghost use Rattle.record_writing.specs.Writing.{most_of};
ghost use Rattle.lagoon_straight.specs.Inner.{StepPut, MeshPut};
ghost use Rattle.lagoon_straight.specs.Straight.{RecordsPut};

use model::{RUN_CELLS, RUN_FACES, RUN_WORK};
use record_layouts::{Width, lengths};

// A step through what has been read, and the next field put into the bytes. Of the other lent tables the lengths alone matter.
pub fn put_step(
    width: Width,
    cells: usize,
    faces: usize,
    volumes: &[u64],
    firsts: &[u64],
    seconds: &[u64],
    shares: &[u64],
    reaches: &[u64],
    masses: &[u64],
    fluxes: &[i64],
    outsides: &[u64],
    releases: &[u64],
    next: &mut [u64],
    moved: &mut [i64],
    work: &mut [u64],
    bytes: &mut [u8],
) -> bool
    requires { mesh_values (most_of width) (mesh_of cells faces volumes.now firsts.now seconds.now shares.now reaches.now)
        ≡ mesh_values ceiling (mesh_of cells faces volumes.now firsts.now seconds.now shares.now reaches.now) }
    ensures { StepPut width
        (mesh_of cells faces volumes.now firsts.now seconds.now shares.now reaches.now)
        masses.now
        (call_of fluxes.now outsides.now next.old moved.old work.old releases.now)
        bytes.old result bytes.new }
{
    let answer = transport::step_in(
        false, cells, faces, volumes, firsts, seconds, shares, reaches, masses, fluxes, outsides,
        next, moved, work, releases,
    );
    let Ok(_) = answer else {
        return false;
    };
    if bytes.len() < lengths::field_bytes(width, cells) {
        return false;
    }
    record_putting::field(width, cells, &next[..cells], bytes);
    true
}

// From the field record on, on a mesh that a writer of this width refuses no value of.
fn on_mesh(
    width: Width,
    cells: usize,
    faces: usize,
    volumes: &[u64],
    firsts: &[u64],
    seconds: &[u64],
    shares: &[u64],
    reaches: &[u64],
    field: &[u8],
    step: &[u8],
    bytes: &mut [u8],
) -> bool
    requires { mesh_values (most_of width) (mesh_of cells faces volumes.now firsts.now seconds.now shares.now reaches.now)
        ≡ mesh_values ceiling (mesh_of cells faces volumes.now firsts.now seconds.now shares.now reaches.now) }
    ensures { MeshPut width
        (mesh_of cells faces volumes.now firsts.now seconds.now shares.now reaches.now)
        field.now step.now bytes.old result bytes.new }
{
    let mut masses = [0u64; RUN_CELLS];
    if record_reading::read_field(width, cells, field, &mut masses).is_err() {
        return false;
    }
    let mut fluxes = [0i64; RUN_FACES];
    let mut outsides = [0u64; RUN_FACES];
    let mut releases = [0u64; RUN_CELLS];
    let read = record_reading::read_step(
        width,
        cells,
        faces,
        seconds,
        step,
        &mut fluxes,
        &mut outsides,
        &mut releases,
    );
    if read.is_err() {
        return false;
    }
    let mut next = [0u64; RUN_CELLS];
    let mut moved = [0i64; RUN_FACES];
    let mut work = [0u64; RUN_WORK];
    put_step(
        width,
        cells,
        faces,
        volumes,
        firsts,
        seconds,
        shares,
        reaches,
        &masses[..cells],
        &fluxes[..faces],
        &outsides[..faces],
        &releases[..cells],
        &mut next,
        &mut moved,
        &mut work,
        bytes,
    )
}

// The three records. Where it is not done, no byte is written.
pub fn step(mesh: &[u8], field: &[u8], step: &[u8], bytes: &mut [u8]) -> bool
    ensures { RecordsPut mesh.now field.now step.now bytes.old result bytes.new }
{
    let mut volumes = [0u64; RUN_CELLS];
    let mut firsts = [0u64; RUN_FACES];
    let mut seconds = [0u64; RUN_FACES];
    let mut shares = [0u64; RUN_FACES];
    let mut reaches = [0u64; RUN_FACES];
    let answer = record_reading::read_mesh(
        RUN_CELLS,
        RUN_FACES,
        mesh,
        &mut volumes,
        &mut firsts,
        &mut seconds,
        &mut shares,
        &mut reaches,
    );
    let Ok(counts) = answer else {
        return false;
    };
    let cells = counts.cells;
    let faces = counts.faces;
    let width = counts.width;
    on_mesh(
        width,
        cells,
        faces,
        &volumes[..cells],
        &firsts[..faces],
        &seconds[..faces],
        &shares[..faces],
        &reaches[..faces],
        field,
        step,
        bytes,
    )
}
