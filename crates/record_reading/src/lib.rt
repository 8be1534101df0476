// The three records of document 01, read; a step record of either kind of document 02's S-6.
#![tactic(auto)]

mod verdicts;

ghost use Rattle.std.specs.Prelude.{length};
ghost use Rattle.model.specs.Mesh.{mesh_of};
ghost use Rattle.record_reading.specs.Reading.{field_read, step_read};
ghost use Rattle.record_reading.specs.Answers.{MeshReads, FieldReading, StepReading};

use model::Refusal;
use record_layouts::{StepKind, Width};

// The counts of a mesh that has been read, and the width of its record.
#[derive(Clone, Copy)]
pub struct MeshCounts {
    pub cells: usize,
    pub faces: usize,
    pub width: Width,
}

// A mesh record read into tables of at least its counts. No limit is above document 01's, whatever the caller sets.
pub fn read_mesh(
    most_cells: usize,
    most_faces: usize,
    bytes: &[u8],
    volumes: &mut [u64],
    firsts: &mut [u64],
    seconds: &mut [u64],
    shares: &mut [u64],
    reaches: &mut [u64],
) -> Result<MeshCounts, Refusal>
    ensures { MeshReads bytes.now
        (mesh_of most_cells most_faces volumes.old firsts.old seconds.old shares.old reaches.old)
        result
        (mesh_of most_cells most_faces volumes.new firsts.new seconds.new shares.new reaches.new) }
{
    let n = verdicts::mesh(
        most_cells,
        most_faces,
        bytes,
        volumes.len(),
        firsts.len(),
        seconds.len(),
        shares.len(),
        reaches.len(),
    )?;
    let width = n.width;
    record_bodies::mesh(
        width,
        n.cells,
        n.faces,
        &bytes[record_layouts::MESH_HEAD..],
        volumes,
        firsts,
        seconds,
        shares,
        reaches,
    );
    Ok(n)
}

// The record of a field on so many cells.
pub fn read_field(
    width: Width,
    cells: usize,
    bytes: &[u8],
    masses: &mut [u64],
) -> Result<(), Refusal>
    ensures { FieldReading
        (field_read width cells bytes.now (length masses.old))
        cells bytes.now masses.old result masses.new }
{
    verdicts::field(width, cells, bytes, masses.len())?;
    record_bodies::field(width, cells, &bytes[record_layouts::FIELD_HEAD..], masses);
    Ok(())
}

// The record of a step on these cells and faces. Of the mesh only the seconds are looked at, for the rim. In the kind without outfalls the
// releases become 0.
pub fn read_step(
    width: Width,
    cells: usize,
    faces: usize,
    seconds: &[u64],
    bytes: &[u8],
    fluxes: &mut [i64],
    outsides: &mut [u64],
    releases: &mut [u64],
) -> Result<StepKind, Refusal>
    ensures { StepReading width
        (step_read width cells faces seconds.now bytes.now
        (length fluxes.old) (length outsides.old) (length releases.old))
        cells faces seconds.now bytes.now fluxes.old outsides.old releases.old
        result fluxes.new outsides.new releases.new }
{
    let kind = verdicts::step(
        width,
        cells,
        faces,
        seconds,
        bytes,
        fluxes.len(),
        outsides.len(),
        releases.len(),
    )?;
    record_bodies::step(
        width,
        kind,
        cells,
        faces,
        seconds,
        &bytes[record_layouts::STEP_HEAD..],
        fluxes,
        outsides,
        releases,
    );
    Ok(kind)
}
