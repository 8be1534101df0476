// The host's call: straight through where nothing is refused, else record by record, as the run takes them, and the next field written.
ghost use Rattle.std.specs.Prelude.{◌≡◌};
ghost use Rattle.model.specs.Mesh.{mesh_of, ceiling};
ghost use Rattle.model.specs.Causes.{mesh_values};
ghost use Rattle.record_writing.specs.Writing.{most_of};
ghost use Rattle.lagoon.specs.Inner.{MeshComes, HostComes};

use model::{RUN_CELLS, RUN_FACES, Refusal};
use record_layouts::Width;

// From the field record on, on a mesh that a writer of this width refuses no value of.
fn on_mesh(
    width: Width,
    cells: usize,
    faces: usize,
    volumes: &[u64],
    firsts: &[u64],
    seconds: &[u64],
    shares: &[u64],
    reaches: &[u64],
    field: &[u8],
    step: &[u8],
    bytes: &mut [u8],
) -> Result<(), Refusal>
    requires { mesh_values (most_of width) (mesh_of cells faces volumes.now firsts.now seconds.now shares.now reaches.now)
        ≡ mesh_values ceiling (mesh_of cells faces volumes.now firsts.now seconds.now shares.now reaches.now) }
    ensures { MeshComes width
        (mesh_of cells faces volumes.now firsts.now seconds.now shares.now reaches.now)
        field.now step.now bytes.old result bytes.new }
{
    let mut masses = [0u64; RUN_CELLS];
    taking_records::take_field(width, cells, field, volumes, &mut masses)?;
    let counted = &mut masses[..cells];
    taking_records::take_step(
        width, cells, faces, step, volumes, firsts, seconds, shares, reaches, counted,
    )?;
    record_writing::write_field(
        width, cells, faces, volumes, firsts, seconds, shares, reaches, counted, bytes,
    )?;
    Ok(())
}

// The three records in their order, each judged before the next is read.
fn in_order(mesh: &[u8], field: &[u8], step: &[u8], bytes: &mut [u8]) -> Result<(), Refusal>
    ensures { HostComes mesh.now field.now step.now bytes.old result bytes.new }
{
    let mut volumes = [0u64; RUN_CELLS];
    let mut firsts = [0u64; RUN_FACES];
    let mut seconds = [0u64; RUN_FACES];
    let mut shares = [0u64; RUN_FACES];
    let mut reaches = [0u64; RUN_FACES];
    let counts = taking_mesh::take_mesh(
        mesh,
        &mut volumes,
        &mut firsts,
        &mut seconds,
        &mut shares,
        &mut reaches,
    )?;
    let cells = counts.cells;
    let faces = counts.faces;
    let width = counts.width;
    on_mesh(
        width,
        cells,
        faces,
        &volumes[..cells],
        &firsts[..faces],
        &seconds[..faces],
        &shares[..faces],
        &reaches[..faces],
        field,
        step,
        bytes,
    )
}

// The three records.
pub fn on_records(mesh: &[u8], field: &[u8], step: &[u8], bytes: &mut [u8]) -> Result<(), Refusal>
    ensures { HostComes mesh.now field.now step.now bytes.old result bytes.new }
{
    if lagoon_short::step(mesh, field, step, bytes) {
        return Ok(());
    }
    if lagoon_straight::step(mesh, field, step, bytes) {
        return Ok(());
    }
    in_order(mesh, field, step, bytes)
}
