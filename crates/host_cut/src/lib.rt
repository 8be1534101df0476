// Document 02's S-12 on records, for a host program in C: a lagoon cut in two, each part in three records of its own.
#![tactic(auto)]

ghost use Rattle.std.specs.Prelude.{◌<◌, ◌^◌};
ghost use Rattle.model.specs.Mesh.{mesh_of};
ghost use Rattle.host_answer.specs.Number.{number_of};
ghost use Rattle.host_answer.specs.Found.{Answered};
ghost use Rattle.host_cut_promises.specs.Cut.{records_of, lengths_found, CutFromC};
ghost use Rattle.host_cut_promises.specs.Inner.{cut_said, CutOn, CutTaking};

use host_cut_labels::labels_found;
use host_cut_promises::CutLengths;
use host_cut_tables::cut_tables;
use host_numbers::{fill4, number_of, put};
use host_taking::take_field;
use model::{RUN_CELLS, RUN_FACES, Refusal};
use record_layouts::Width;

// The step record, on a mesh and a field that have been taken.
fn on_field(
    width: Width,
    cells: usize,
    faces: usize,
    volumes: &[u64],
    firsts: &[u64],
    seconds: &[u64],
    shares: &[u64],
    reaches: &[u64],
    masses: &[u64],
    step: &[u8],
    labels: &[u64],
    mesh0: &mut [u8],
    field0: &mut [u8],
    step0: &mut [u8],
    mesh1: &mut [u8],
    field1: &mut [u8],
    step1: &mut [u8],
) -> Result<CutLengths, Refusal>
    ensures { CutOn width
        (mesh_of cells faces volumes.now firsts.now seconds.now shares.now reaches.now)
        masses.now step.now labels.now (records_of mesh0.old field0.old step0.old)
        (records_of mesh1.old field1.old step1.old) result (records_of mesh0.new field0.new step0.new)
        (records_of mesh1.new field1.new step1.new) }
{
    let mut fluxes = [0i64; RUN_FACES];
    let mut outsides = [0u64; RUN_FACES];
    let mut releases = [0u64; RUN_CELLS];
    let kind = record_reading::read_step(
        width,
        cells,
        faces,
        seconds,
        step,
        &mut fluxes,
        &mut outsides,
        &mut releases,
    )?;
    cut_tables(
        width,
        kind,
        cells,
        faces,
        volumes,
        firsts,
        seconds,
        shares,
        reaches,
        masses,
        &fluxes[..faces],
        &outsides[..faces],
        &releases[..cells],
        labels,
        mesh0,
        field0,
        step0,
        mesh1,
        field1,
        step1,
    )
}

// The three records in their order.
fn on_records(
    mesh: &[u8],
    field: &[u8],
    step: &[u8],
    labels: &[u64],
    mesh0: &mut [u8],
    field0: &mut [u8],
    step0: &mut [u8],
    mesh1: &mut [u8],
    field1: &mut [u8],
    step1: &mut [u8],
) -> Result<CutLengths, Refusal>
    ensures { CutTaking mesh.now field.now step.now labels.now
        (records_of mesh0.old field0.old step0.old)
        (records_of mesh1.old field1.old step1.old) result (records_of mesh0.new field0.new step0.new)
        (records_of mesh1.new field1.new step1.new) }
{
    let mut volumes = [0u64; RUN_CELLS];
    let mut firsts = [0u64; RUN_FACES];
    let mut seconds = [0u64; RUN_FACES];
    let mut shares = [0u64; RUN_FACES];
    let mut reaches = [0u64; RUN_FACES];
    let mut masses = [0u64; RUN_CELLS];
    let counts = take_field(
        mesh,
        field,
        &mut volumes,
        &mut firsts,
        &mut seconds,
        &mut shares,
        &mut reaches,
        &mut masses,
    )?;
    let cells = counts.cells;
    let faces = counts.faces;
    on_field(
        counts.width,
        cells,
        faces,
        &volumes[..cells],
        &firsts[..faces],
        &seconds[..faces],
        &shares[..faces],
        &reaches[..faces],
        &masses[..cells],
        step,
        labels,
        mesh0,
        field0,
        step0,
        mesh1,
        field1,
        step1,
    )
}

// The answer: found are the bytes of the six records.
fn answered(answer: Result<CutLengths, Refusal>, found: &mut [u64]) -> u64
    requires { number_of (cut_said answer) < 2 ^ 64 }
    ensures { Answered lengths_found (cut_said answer) found.old result found.new }
{
    match answer {
        Ok(n) => {
            fill4(found, n.mesh_0, n.field_0, n.step_0, n.mesh_1);
            put(found, 4, n.field_1);
            put(found, 5, n.step_1);
            0
        }
        Err(refusal) => number_of(refusal),
    }
}

// A lagoon in three records cut along its labels: mesh, field and step of part 0, then of part 1.
#[unsafe(no_mangle)]
pub extern "C" fn lagoon_cut(
    mesh: &[u8],
    field: &[u8],
    step: &[u8],
    labels: &[u64],
    mesh0: &mut [u8],
    field0: &mut [u8],
    step0: &mut [u8],
    mesh1: &mut [u8],
    field1: &mut [u8],
    step1: &mut [u8],
    found: &mut [u64],
) -> u64
    ensures { CutFromC mesh.now field.now step.now labels.now
        (records_of mesh0.old field0.old step0.old)
        (records_of mesh1.old field1.old step1.old) found.old result
        (records_of mesh0.new field0.new step0.new)
        (records_of mesh1.new field1.new step1.new) found.new }
{
    if let Err(r) = labels_found(mesh, labels) {
        return number_of(r);
    }
    let b = on_records(
        mesh, field, step, labels, mesh0, field0, step0, mesh1, field1, step1,
    );
    answered(b, found)
}
