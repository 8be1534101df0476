// What a writing is refused for, before the first byte is touched.
#![tactic(auto)]

mod releases;

ghost use Rattle.std.specs.Prelude.{◌≡◌};
ghost use Rattle.model.specs.Mesh.{mesh_of};
ghost use Rattle.model.specs.Answers.{said};
ghost use Rattle.record_layouts.specs.Layouts.{kind_number};
ghost use Rattle.record_causes.specs.Verdicts.{most_of, mesh_write_verdict, field_write_verdict, step_write_verdict};

use model::needs::long;
use model::{Refusal, positions};
use record_layouts::{StepKind, Width, lengths};

// The ceiling of volumes, reaches and fluxes over the rim in records of a width.
fn most_of(width: Width) -> u64
    ensures { result ≡ most_of width }
{
    match width {
        Width::Narrow => model::OLD_CEILING,
        Width::Wide => model::CEILING,
    }
}

// What writing a mesh into so many bytes is refused for.
pub fn mesh(
    width: Width,
    cells: usize,
    faces: usize,
    volumes: &[u64],
    firsts: &[u64],
    seconds: &[u64],
    shares: &[u64],
    reaches: &[u64],
    room: usize,
) -> Result<(), Refusal>
    ensures { said result ≡ mesh_write_verdict width
        (mesh_of cells faces volumes.now firsts.now seconds.now shares.now reaches.now)
        room }
{
    check_lent::mesh_lent(cells, faces, volumes, firsts, seconds, shares, reaches)?;
    long(
        positions::RECORD,
        lengths::mesh_bytes(width, cells, faces),
        room,
    )?;
    check_mesh::values(
        cells,
        faces,
        volumes,
        firsts,
        seconds,
        shares,
        reaches,
        most_of(width),
    )
}

// What writing a field into so many bytes is refused for.
pub fn field(
    width: Width,
    cells: usize,
    faces: usize,
    volumes: &[u64],
    firsts: &[u64],
    seconds: &[u64],
    shares: &[u64],
    reaches: &[u64],
    masses: &[u64],
    room: usize,
) -> Result<(), Refusal>
    ensures { said result ≡ field_write_verdict width
        (mesh_of cells faces volumes.now firsts.now seconds.now shares.now reaches.now)
        masses.now room }
{
    check_lent::field_lent(
        cells, faces, volumes, firsts, seconds, shares, reaches, masses,
    )?;
    long(positions::RECORD, lengths::field_bytes(width, cells), room)?;
    check_mesh::values(
        cells,
        faces,
        volumes,
        firsts,
        seconds,
        shares,
        reaches,
        most_of(width),
    )?;
    checks::field::values(cells, volumes, masses)
}

// What writing a step into so many bytes is refused for. Its length rests on the seconds as they stand.
pub fn step(
    width: Width,
    kind: StepKind,
    cells: usize,
    faces: usize,
    volumes: &[u64],
    firsts: &[u64],
    seconds: &[u64],
    shares: &[u64],
    reaches: &[u64],
    fluxes: &[i64],
    outsides: &[u64],
    room: usize,
    releases: &[u64],
) -> Result<(), Refusal>
    ensures { said result ≡ step_write_verdict width
        (mesh_of cells faces volumes.now firsts.now seconds.now shares.now reaches.now)
        (kind_number width kind) fluxes.now outsides.now releases.now room }
{
    check_lent::mesh_lent(cells, faces, volumes, firsts, seconds, shares, reaches)?;
    long(positions::FLUXES, faces, fluxes.len())?;
    long(positions::OUTSIDES, faces, outsides.len())?;
    long(
        positions::RECORD,
        lengths::step_bytes(width, kind, cells, faces, seconds),
        room,
    )?;
    long(positions::RELEASES, cells, releases.len())?;
    check_mesh::values(
        cells,
        faces,
        volumes,
        firsts,
        seconds,
        shares,
        reaches,
        most_of(width),
    )?;
    releases::values(width, kind, cells, releases)?;
    check_water::values(faces, seconds, reaches, fluxes, outsides, most_of(width))
}
