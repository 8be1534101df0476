// A lagoon on tables cut in two, each part as three records.
#![tactic(auto)]

ghost use Rattle.std.specs.Prelude.{◌≡◌};
ghost use Rattle.model.specs.Causes.{◌and_then◌};
ghost use Rattle.model.specs.Answers.{said};
ghost use Rattle.cutting_parts.specs.Cut.{tables_of, lagoon_of};
ghost use Rattle.record_layouts.specs.Layouts.{kind_number};
ghost use Rattle.host_cut_promises.specs.Cut.{records_of};
ghost use Rattle.host_cut_promises.specs.Inner.{both_find, cut_finds, CutIn};

use host_cut_parts::{part_found, part_written};
use host_cut_promises::CutLengths;
use model::{RUN_CELLS, RUN_FACES, Refusal};
use record_layouts::{StepKind, Width};

// What cutting refuses, and then the writers of both parts, before the first byte is touched.
fn tested(
    width: Width,
    kind: StepKind,
    cells: usize,
    faces: usize,
    volumes: &[u64],
    firsts: &[u64],
    seconds: &[u64],
    shares: &[u64],
    reaches: &[u64],
    masses: &[u64],
    fluxes: &[i64],
    outsides: &[u64],
    releases: &[u64],
    labels: &[u64],
    m0: usize,
    f0: usize,
    s0: usize,
    m1: usize,
    f1: usize,
    s1: usize,
) -> Result<(), Refusal>
    ensures { said result ≡ (cut_finds (lagoon_of cells faces (tables_of volumes.now firsts.now seconds.now shares.now
        reaches.now masses.now fluxes.now outsides.now releases.now))
        labels.now and_then both_find width (kind_number width kind) (lagoon_of cells faces (tables_of volumes.now firsts.now seconds.now shares.now
        reaches.now masses.now fluxes.now outsides.now releases.now))
        labels.now m0 f0 s0 m1 f1 s1) }
{
    cutting_causes::verdict(
        cells, faces, volumes, firsts, seconds, shares, reaches, masses, fluxes, outsides,
        releases, labels, RUN_CELLS, RUN_CELLS, RUN_FACES, RUN_FACES, RUN_FACES, RUN_FACES,
        RUN_FACES, RUN_FACES, RUN_FACES, RUN_FACES, RUN_CELLS, RUN_CELLS, RUN_FACES, RUN_FACES,
        RUN_FACES, RUN_FACES, RUN_CELLS, RUN_CELLS,
    )?;
    part_found(
        width, kind, 0, cells, faces, volumes, firsts, seconds, shares, reaches, masses, fluxes,
        outsides, releases, labels, m0, f0, s0,
    )?;
    part_found(
        width, kind, 1, cells, faces, volumes, firsts, seconds, shares, reaches, masses, fluxes,
        outsides, releases, labels, m1, f1, s1,
    )
}

// Both parts, in six records.
pub fn cut_tables(
    width: Width,
    kind: StepKind,
    cells: usize,
    faces: usize,
    volumes: &[u64],
    firsts: &[u64],
    seconds: &[u64],
    shares: &[u64],
    reaches: &[u64],
    masses: &[u64],
    fluxes: &[i64],
    outsides: &[u64],
    releases: &[u64],
    labels: &[u64],
    mesh0: &mut [u8],
    field0: &mut [u8],
    step0: &mut [u8],
    mesh1: &mut [u8],
    field1: &mut [u8],
    step1: &mut [u8],
) -> Result<CutLengths, Refusal>
    ensures { CutIn width (kind_number width kind) (lagoon_of cells faces (tables_of volumes.now firsts.now seconds.now shares.now
        reaches.now masses.now fluxes.now outsides.now releases.now))
        labels.now (records_of mesh0.old field0.old step0.old)
        (records_of mesh1.old field1.old step1.old) result (records_of mesh0.new field0.new step0.new)
        (records_of mesh1.new field1.new step1.new) }
{
    tested(
        width,
        kind,
        cells,
        faces,
        volumes,
        firsts,
        seconds,
        shares,
        reaches,
        masses,
        fluxes,
        outsides,
        releases,
        labels,
        mesh0.len(),
        field0.len(),
        step0.len(),
        mesh1.len(),
        field1.len(),
        step1.len(),
    )?;
    let x = part_written(
        width, kind, 0, cells, faces, volumes, firsts, seconds, shares, reaches, masses, fluxes,
        outsides, releases, labels, mesh0, field0, step0,
    );
    let y = part_written(
        width, kind, 1, cells, faces, volumes, firsts, seconds, shares, reaches, masses, fluxes,
        outsides, releases, labels, mesh1, field1, step1,
    );
    Ok(CutLengths {
        mesh_0: x.mesh,
        field_0: x.field,
        step_0: x.step,
        mesh_1: y.mesh,
        field_1: y.field,
        step_1: y.step,
    })
}
