// A mesh record and a field record, taken into tables of the caller's own before a call on them.
#![tactic(auto)]

ghost use Rattle.std.specs.Prelude.{◌≡◌, length};
ghost use Rattle.model.specs.Mesh.{mesh_of, run_cells, run_faces};
ghost use Rattle.host_taking.specs.Taken.{RecordsTaking, CellsTaking};

use model::{RUN_FACES, Refusal};
use record_layouts::Width;

// The counts of the mesh, the width of its record, and the total of the field.
#[derive(Clone, Copy)]
pub struct FieldCounts {
    pub cells: usize,
    pub faces: usize,
    pub width: Width,
    pub total: u64,
}

// Both records, into tables as long as the run's limits.
pub fn take_field(
    mesh: &[u8],
    field: &[u8],
    volumes: &mut [u64],
    firsts: &mut [u64],
    seconds: &mut [u64],
    shares: &mut [u64],
    reaches: &mut [u64],
    masses: &mut [u64],
) -> Result<FieldCounts, Refusal>
    requires volumes_len { (length volumes.old ≡ run_cells) × (length masses.old ≡ run_cells) }
    requires firsts_len { (length firsts.old ≡ run_faces) × (length seconds.old ≡ run_faces) × (length shares.old ≡ run_faces) × (length reaches.old ≡ run_faces) }
    ensures { RecordsTaking mesh.now field.now result
        (mesh_of run_cells run_faces volumes.new firsts.new seconds.new shares.new reaches.new)
        masses.new }
{
    let counts = taking_mesh::take_mesh(mesh, volumes, firsts, seconds, shares, reaches)?;
    let cells = counts.cells;
    let width = counts.width;
    let total = taking_records::take_field(width, cells, field, &volumes[..cells], masses)?;
    Ok(FieldCounts {
        cells,
        faces: counts.faces,
        width,
        total,
    })
}

// Both records, for a call that looks at cells alone.
pub fn take_cells(
    mesh: &[u8],
    field: &[u8],
    volumes: &mut [u64],
    masses: &mut [u64],
) -> Result<FieldCounts, Refusal>
    requires { (length volumes.old ≡ run_cells) × (length masses.old ≡ run_cells) }
    ensures { CellsTaking mesh.now field.now result volumes.new masses.new }
{
    let mut firsts = [0u64; RUN_FACES];
    let mut seconds = [0u64; RUN_FACES];
    let mut shares = [0u64; RUN_FACES];
    let mut reaches = [0u64; RUN_FACES];
    take_field(
        mesh,
        field,
        volumes,
        &mut firsts,
        &mut seconds,
        &mut shares,
        &mut reaches,
        masses,
    )
}
