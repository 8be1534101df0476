// A step on records that is made and not written, for a host program in C: what it finds, and what crosses the rim in it.
#![tactic(auto)]

ghost use Rattle.std.specs.Prelude.{◌≡◌};
ghost use Rattle.model.specs.StepTaken.{taken_said};
ghost use Rattle.host_answer.specs.Number.{number_of};
ghost use Rattle.host_answer.specs.Found.{Answered};
ghost use Rattle.host_tested.specs.Tested.{step_tested};
ghost use Rattle.host_record_promises.specs.Crossing.{step_found, crossed_in};

use host_numbers::{fill3, number_of};
use host_taking::take_field;
use model::{Printed, RUN_CELLS, RUN_FACES, Refusal};

// The three records in their order; the step is made on tables of its own.
fn crossed(mesh: &[u8], field: &[u8], step: &[u8]) -> Result<Printed, Refusal>
    ensures { taken_said result ≡ step_found mesh.now field.now step.now }
{
    let mut volumes = [0u64; RUN_CELLS];
    let mut firsts = [0u64; RUN_FACES];
    let mut seconds = [0u64; RUN_FACES];
    let mut shares = [0u64; RUN_FACES];
    let mut reaches = [0u64; RUN_FACES];
    let mut masses = [0u64; RUN_CELLS];
    let counts = take_field(
        mesh,
        field,
        &mut volumes,
        &mut firsts,
        &mut seconds,
        &mut shares,
        &mut reaches,
        &mut masses,
    )?;
    let cells = counts.cells;
    let faces = counts.faces;
    let width = counts.width;
    taking_records::take_step(
        width,
        cells,
        faces,
        step,
        &volumes[..cells],
        &firsts[..faces],
        &seconds[..faces],
        &shares[..faces],
        &reaches[..faces],
        &mut masses[..cells],
    )
}

// What the step on records answers where there is room for the next field.
#[unsafe(no_mangle)]
pub extern "C" fn lagoon_check(mesh: &[u8], field: &[u8], step: &[u8]) -> u64
    ensures { result ≡ number_of (step_tested mesh.now field.now step.now) }
{
    let a = crossed(mesh, field, step);
    match a {
        Err(refusal) => number_of(refusal),
        Ok(_) => 0,
    }
}

// In-mass, out-mass and released mass of the step.
#[unsafe(no_mangle)]
pub extern "C" fn lagoon_crossing(mesh: &[u8], field: &[u8], step: &[u8], found: &mut [u64]) -> u64
    ensures { Answered crossed_in (step_found mesh.now field.now step.now) found.old result found.new }
{
    let a = crossed(mesh, field, step);
    match a {
        Err(refusal) => number_of(refusal),
        Ok(printed) => {
            fill3(found, printed.entered, printed.gone, printed.released);
            0
        }
    }
}
