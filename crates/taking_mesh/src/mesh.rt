// A mesh record.
ghost use Rattle.std.specs.Prelude.{◌≡◌};
ghost use Rattle.model.specs.Mesh.{mesh_of, run_cells, run_faces};
ghost use Rattle.model.specs.Meshes.{MeshCut};
ghost use Rattle.model.specs.Causes.{in_turn, mesh_long};
ghost use Rattle.model.specs.Answers.{said};
ghost use Rattle.taking_mesh.specs.MeshTaking.{MeshKept, MeshTaking};
ghost use Rattle.taking_mesh.specs.Inner.{kept_found};

use model::needs::long;
use model::{RUN_CELLS, RUN_FACES, Refusal, positions};
use record_layouts::Width;
use record_reading::MeshCounts;

// Cause 2: whether lent tables of so many entries hold the mesh.
fn holds(
    cells: usize,
    faces: usize,
    volumes: usize,
    firsts: usize,
    seconds: usize,
    shares: usize,
    reaches: usize,
) -> Result<(), Refusal>
    ensures { said result ≡ in_turn (mesh_long cells faces volumes firsts seconds shares reaches) }
{
    long(positions::VOLUMES, cells, volumes)?;
    long(positions::FIRSTS, faces, firsts)?;
    long(positions::SECONDS, faces, seconds)?;
    long(positions::SHARES, faces, shares)?;
    long(positions::REACHES, faces, reaches)
}

// A mesh that has been read, judged by 3 to 5 and copied into the lent tables.
fn keep(
    width: Width,
    cells: usize,
    faces: usize,
    read_volumes: &[u64],
    read_firsts: &[u64],
    read_seconds: &[u64],
    read_shares: &[u64],
    read_reaches: &[u64],
    volumes: &mut [u64],
    firsts: &mut [u64],
    seconds: &mut [u64],
    shares: &mut [u64],
    reaches: &mut [u64],
) -> Result<MeshCounts, Refusal>
    requires { MeshCut (mesh_of cells faces read_volumes.now read_firsts.now read_seconds.now read_shares.now read_reaches.now) }
    ensures { MeshKept
        (kept_found
        (mesh_of run_cells run_faces volumes.old firsts.old seconds.old shares.old reaches.old)
        (mesh_of cells faces read_volumes.now read_firsts.now read_seconds.now read_shares.now
        read_reaches.now))
        width
        (mesh_of cells faces read_volumes.now read_firsts.now read_seconds.now read_shares.now
        read_reaches.now)
        (mesh_of run_cells run_faces volumes.old firsts.old seconds.old shares.old reaches.old) result
        (mesh_of run_cells run_faces volumes.new firsts.new seconds.new shares.new reaches.new) }
{
    holds(
        cells,
        faces,
        volumes.len(),
        firsts.len(),
        seconds.len(),
        shares.len(),
        reaches.len(),
    )?;
    checks::check_mesh(
        cells,
        faces,
        read_volumes,
        read_firsts,
        read_seconds,
        read_shares,
        read_reaches,
    )?;
    lists::copy(read_volumes, volumes);
    lists::copy(read_firsts, firsts);
    lists::copy(read_seconds, seconds);
    lists::copy(read_shares, shares);
    lists::copy(read_reaches, reaches);
    Ok(MeshCounts {
        cells,
        faces,
        width,
    })
}

// A mesh within the run's limits.
pub fn take_mesh(
    bytes: &[u8],
    volumes: &mut [u64],
    firsts: &mut [u64],
    seconds: &mut [u64],
    shares: &mut [u64],
    reaches: &mut [u64],
) -> Result<MeshCounts, Refusal>
    ensures { MeshTaking bytes.now
        (mesh_of run_cells run_faces volumes.old firsts.old seconds.old shares.old reaches.old) result
        (mesh_of run_cells run_faces volumes.new firsts.new seconds.new shares.new reaches.new) }
{
    let mut read_volumes = [0u64; RUN_CELLS];
    let mut read_firsts = [0u64; RUN_FACES];
    let mut read_seconds = [0u64; RUN_FACES];
    let mut read_shares = [0u64; RUN_FACES];
    let mut read_reaches = [0u64; RUN_FACES];
    let counts = record_reading::read_mesh(
        RUN_CELLS,
        RUN_FACES,
        bytes,
        &mut read_volumes,
        &mut read_firsts,
        &mut read_seconds,
        &mut read_shares,
        &mut read_reaches,
    )?;
    let cells = counts.cells;
    let faces = counts.faces;
    let width = counts.width;
    keep(
        width,
        cells,
        faces,
        &read_volumes[..cells],
        &read_firsts[..faces],
        &read_seconds[..faces],
        &read_shares[..faces],
        &read_reaches[..faces],
        volumes,
        firsts,
        seconds,
        shares,
        reaches,
    )
}
