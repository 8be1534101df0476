// The records of documents 01 and 02, written. What is refused is refused before the first byte is touched.
#![tactic(auto)]

ghost use Rattle.model.specs.Mesh.{mesh_of};
ghost use Rattle.record_layouts.specs.Layouts.{kind_number};
ghost use Rattle.record_writing.specs.Writing.{MeshWriting, FieldWriting, StepWriting};

use model::Refusal;
use record_layouts::{StepKind, Width};

// The record of a mesh.
pub fn write_mesh(
    width: Width,
    cells: usize,
    faces: usize,
    volumes: &[u64],
    firsts: &[u64],
    seconds: &[u64],
    shares: &[u64],
    reaches: &[u64],
    bytes: &mut [u8],
) -> Result<u64, Refusal>
    ensures { MeshWriting width
        (mesh_of cells faces volumes.now firsts.now seconds.now shares.now reaches.now)
        bytes.old result bytes.new }
{
    record_causes::mesh(
        width,
        cells,
        faces,
        volumes,
        firsts,
        seconds,
        shares,
        reaches,
        bytes.len(),
    )?;
    let length = record_putting::mesh(
        width, cells, faces, volumes, firsts, seconds, shares, reaches, bytes,
    );
    Ok(length as u64)
}

// The record of a field. The mesh is lent for the causes alone.
pub fn write_field(
    width: Width,
    cells: usize,
    faces: usize,
    volumes: &[u64],
    firsts: &[u64],
    seconds: &[u64],
    shares: &[u64],
    reaches: &[u64],
    masses: &[u64],
    bytes: &mut [u8],
) -> Result<u64, Refusal>
    ensures { FieldWriting width
        (mesh_of cells faces volumes.now firsts.now seconds.now shares.now reaches.now)
        masses.now bytes.old result bytes.new }
{
    record_causes::field(
        width,
        cells,
        faces,
        volumes,
        firsts,
        seconds,
        shares,
        reaches,
        masses,
        bytes.len(),
    )?;
    let length = record_putting::field(width, cells, masses, bytes);
    Ok(length as u64)
}

// The record of a step, of the kind that the writer is told. The kind without outfalls holds no release but 0.
pub fn write_step(
    width: Width,
    kind: StepKind,
    cells: usize,
    faces: usize,
    volumes: &[u64],
    firsts: &[u64],
    seconds: &[u64],
    shares: &[u64],
    reaches: &[u64],
    fluxes: &[i64],
    outsides: &[u64],
    bytes: &mut [u8],
    releases: &[u64],
) -> Result<u64, Refusal>
    ensures { StepWriting width
        (mesh_of cells faces volumes.now firsts.now seconds.now shares.now reaches.now)
        (kind_number width kind) fluxes.now outsides.now releases.now bytes.old result bytes.new }
{
    record_causes::step(
        width,
        kind,
        cells,
        faces,
        volumes,
        firsts,
        seconds,
        shares,
        reaches,
        fluxes,
        outsides,
        bytes.len(),
        releases,
    )?;
    let length = record_putting::step(
        width, kind, cells, faces, seconds, fluxes, outsides, bytes, releases,
    );
    Ok(length as u64)
}
