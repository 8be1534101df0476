// One part of a lagoon as three records: what their writers refuse, and the records written.
#![tactic(auto)]

ghost use Rattle.std.specs.Prelude.{◌≡◌};
ghost use Rattle.model.specs.Answers.{said};
ghost use Rattle.cutting_parts.specs.Cut.{tables_of, lagoon_of};
ghost use Rattle.cutting_tables.specs.Part.{Cuttable};
ghost use Rattle.record_layouts.specs.Layouts.{kind_number};
ghost use Rattle.host_cut_promises.specs.Cut.{own_part, piece, records_of};
ghost use Rattle.host_cut_promises.specs.Inner.{writers_find, PieceWritten};

use cutting_tables::part;
use host_cut_promises::PartLengths;
use model::{RUN_CELLS, RUN_FACES, Refusal};
use record_layouts::{StepKind, Width};

// What the writers of a lagoon's three records find, in rooms of so many bytes.
fn finds(
    width: Width,
    kind: StepKind,
    cells: usize,
    faces: usize,
    volumes: &[u64],
    firsts: &[u64],
    seconds: &[u64],
    shares: &[u64],
    reaches: &[u64],
    masses: &[u64],
    fluxes: &[i64],
    outsides: &[u64],
    releases: &[u64],
    mesh_room: usize,
    field_room: usize,
    step_room: usize,
) -> Result<(), Refusal>
    ensures { said result ≡ writers_find width (kind_number width kind) (lagoon_of cells faces (tables_of volumes.now firsts.now
        seconds.now shares.now
        reaches.now masses.now fluxes.now outsides.now releases.now))
        mesh_room field_room step_room }
{
    record_causes::mesh(
        width, cells, faces, volumes, firsts, seconds, shares, reaches, mesh_room,
    )?;
    record_causes::field(
        width, cells, faces, volumes, firsts, seconds, shares, reaches, masses, field_room,
    )?;
    record_causes::step(
        width, kind, cells, faces, volumes, firsts, seconds, shares, reaches, fluxes, outsides,
        step_room, releases,
    )
}

// The three records, each as its writer leaves it.
fn writes(
    width: Width,
    kind: StepKind,
    cells: usize,
    faces: usize,
    volumes: &[u64],
    firsts: &[u64],
    seconds: &[u64],
    shares: &[u64],
    reaches: &[u64],
    masses: &[u64],
    fluxes: &[i64],
    outsides: &[u64],
    releases: &[u64],
    mesh: &mut [u8],
    field: &mut [u8],
    step: &mut [u8],
) -> PartLengths
    ensures { PieceWritten width (kind_number width kind) (lagoon_of cells faces (tables_of volumes.now firsts.now seconds.now shares.now
        reaches.now masses.now fluxes.now outsides.now releases.now))
        (records_of mesh.old field.old step.old) result
        (records_of mesh.new field.new step.new) }
{
    let a = record_writing::write_mesh(
        width, cells, faces, volumes, firsts, seconds, shares, reaches, mesh,
    );
    let b = record_writing::write_field(
        width, cells, faces, volumes, firsts, seconds, shares, reaches, masses, field,
    );
    let c = record_writing::write_step(
        width, kind, cells, faces, volumes, firsts, seconds, shares, reaches, fluxes, outsides,
        step, releases,
    );
    PartLengths {
        mesh: a.unwrap_or(0),
        field: b.unwrap_or(0),
        step: c.unwrap_or(0),
    }
}

// What the three writers find of one part.
pub fn part_found(
    width: Width,
    kind: StepKind,
    label: u64,
    cells: usize,
    faces: usize,
    volumes: &[u64],
    firsts: &[u64],
    seconds: &[u64],
    shares: &[u64],
    reaches: &[u64],
    masses: &[u64],
    fluxes: &[i64],
    outsides: &[u64],
    releases: &[u64],
    labels: &[u64],
    mesh_room: usize,
    field_room: usize,
    step_room: usize,
) -> Result<(), Refusal>
    requires { Cuttable (lagoon_of cells faces (tables_of volumes.now firsts.now seconds.now shares.now reaches.now masses.now fluxes.now
        outsides.now releases.now)) labels.now own_part }
    ensures { said result ≡ writers_find width (kind_number width kind) (piece (lagoon_of cells faces (tables_of volumes.now firsts.now seconds.now shares.now
        reaches.now masses.now fluxes.now outsides.now releases.now))
        labels.now label) mesh_room field_room step_room }
{
    let mut own_volumes = [0u64; RUN_CELLS];
    let mut own_firsts = [0u64; RUN_FACES];
    let mut own_seconds = [0u64; RUN_FACES];
    let mut own_shares = [0u64; RUN_FACES];
    let mut own_reaches = [0u64; RUN_FACES];
    let mut own_masses = [0u64; RUN_CELLS];
    let mut own_fluxes = [0i64; RUN_FACES];
    let mut own_outsides = [0u64; RUN_FACES];
    let mut own_releases = [0u64; RUN_CELLS];
    let own = part(
        label,
        cells,
        faces,
        volumes,
        firsts,
        seconds,
        shares,
        reaches,
        masses,
        fluxes,
        outsides,
        releases,
        labels,
        &mut own_volumes,
        &mut own_firsts,
        &mut own_seconds,
        &mut own_shares,
        &mut own_reaches,
        &mut own_masses,
        &mut own_fluxes,
        &mut own_outsides,
        &mut own_releases,
    );
    finds(
        width,
        kind,
        own.cells,
        own.faces,
        &own_volumes,
        &own_firsts,
        &own_seconds,
        &own_shares,
        &own_reaches,
        &own_masses,
        &own_fluxes,
        &own_outsides,
        &own_releases,
        mesh_room,
        field_room,
        step_room,
    )
}

// The three records of one part.
pub fn part_written(
    width: Width,
    kind: StepKind,
    label: u64,
    cells: usize,
    faces: usize,
    volumes: &[u64],
    firsts: &[u64],
    seconds: &[u64],
    shares: &[u64],
    reaches: &[u64],
    masses: &[u64],
    fluxes: &[i64],
    outsides: &[u64],
    releases: &[u64],
    labels: &[u64],
    mesh: &mut [u8],
    field: &mut [u8],
    step: &mut [u8],
) -> PartLengths
    requires { Cuttable (lagoon_of cells faces (tables_of volumes.now firsts.now seconds.now shares.now reaches.now masses.now fluxes.now
        outsides.now releases.now)) labels.now own_part }
    ensures { PieceWritten width (kind_number width kind) (piece (lagoon_of cells faces (tables_of volumes.now firsts.now
        seconds.now shares.now
        reaches.now masses.now fluxes.now outsides.now releases.now))
        labels.now label) (records_of mesh.old field.old step.old) result
        (records_of mesh.new field.new step.new) }
{
    let mut own_volumes = [0u64; RUN_CELLS];
    let mut own_firsts = [0u64; RUN_FACES];
    let mut own_seconds = [0u64; RUN_FACES];
    let mut own_shares = [0u64; RUN_FACES];
    let mut own_reaches = [0u64; RUN_FACES];
    let mut own_masses = [0u64; RUN_CELLS];
    let mut own_fluxes = [0i64; RUN_FACES];
    let mut own_outsides = [0u64; RUN_FACES];
    let mut own_releases = [0u64; RUN_CELLS];
    let own = part(
        label,
        cells,
        faces,
        volumes,
        firsts,
        seconds,
        shares,
        reaches,
        masses,
        fluxes,
        outsides,
        releases,
        labels,
        &mut own_volumes,
        &mut own_firsts,
        &mut own_seconds,
        &mut own_shares,
        &mut own_reaches,
        &mut own_masses,
        &mut own_fluxes,
        &mut own_outsides,
        &mut own_releases,
    );
    writes(
        width,
        kind,
        own.cells,
        own.faces,
        &own_volumes,
        &own_firsts,
        &own_seconds,
        &own_shares,
        &own_reaches,
        &own_masses,
        &own_fluxes,
        &own_outsides,
        &own_releases,
        mesh,
        field,
        step,
    )
}
