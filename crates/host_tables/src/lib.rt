// The steps on lent tables, for a host program in C: each is the engine's call of that name, with its answer as numbers.
#![tactic(auto)]

ghost use Rattle.std.specs.Prelude.{◌<◌, ◌^◌};
ghost use Rattle.model.specs.Mesh.{mesh_of};
ghost use Rattle.model.specs.Causes.{call_of};
ghost use Rattle.model.specs.Claims.{claim_of};
ghost use Rattle.model.specs.Calls.{corrected, plain};
ghost use Rattle.transport.specs.Promise.{step_said};
ghost use Rattle.host_answer.specs.Number.{number_of};
ghost use Rattle.host_answer.specs.Found.{Answered};
ghost use Rattle.host_answer.specs.Steps.{crossed, StepFromC, JudgeFromC};

use host_numbers::{fill3, number_of};
use model::Refusal;
use transport::{Crossed, Way};

// A step's answer: found are in-mass, out-mass and released mass.
pub fn answered(answer: Result<Crossed, Refusal>, found: &mut [u64]) -> u64
    requires { number_of (step_said answer) < 2 ^ 64 }
    ensures { Answered crossed (step_said answer) found.old result found.new }
{
    match answer {
        Ok(crossed) => {
            fill3(found, crossed.entered, crossed.gone, crossed.released);
            0
        }
        Err(refusal) => number_of(refusal),
    }
}

// One step.
#[unsafe(no_mangle)]
pub extern "C" fn lagoon_table_step(
    cells: usize,
    faces: usize,
    volumes: &[u64],
    firsts: &[u64],
    seconds: &[u64],
    shares: &[u64],
    reaches: &[u64],
    masses: &[u64],
    fluxes: &[i64],
    outsides: &[u64],
    next: &mut [u64],
    moved: &mut [i64],
    work: &mut [u64],
    releases: &[u64],
    found: &mut [u64],
) -> u64
    ensures { StepFromC corrected
        (mesh_of cells faces volumes.now firsts.now seconds.now shares.now reaches.now)
        masses.now
        (call_of fluxes.now outsides.now next.old moved.old work.old releases.now)
        found.old result next.new moved.new work.new found.new }
{
    let answer = transport::step(
        Way::Corrected,
        cells,
        faces,
        volumes,
        firsts,
        seconds,
        shares,
        reaches,
        masses,
        fluxes,
        outsides,
        next,
        moved,
        work,
        releases,
    );
    answered(answer, found)
}

// Document 02's S-8: the plain step.
#[unsafe(no_mangle)]
pub extern "C" fn lagoon_table_plain_step(
    cells: usize,
    faces: usize,
    volumes: &[u64],
    firsts: &[u64],
    seconds: &[u64],
    shares: &[u64],
    reaches: &[u64],
    masses: &[u64],
    fluxes: &[i64],
    outsides: &[u64],
    next: &mut [u64],
    moved: &mut [i64],
    work: &mut [u64],
    releases: &[u64],
    found: &mut [u64],
) -> u64
    ensures { StepFromC plain
        (mesh_of cells faces volumes.now firsts.now seconds.now shares.now reaches.now)
        masses.now
        (call_of fluxes.now outsides.now next.old moved.old work.old releases.now)
        found.old result next.new moved.new work.new found.new }
{
    let answer = transport::step(
        Way::Plain,
        cells,
        faces,
        volumes,
        firsts,
        seconds,
        shares,
        reaches,
        masses,
        fluxes,
        outsides,
        next,
        moved,
        work,
        releases,
    );
    answered(answer, found)
}

// Document 02's S-11: another model's step, judged. The claim is lent as moved and stays as it was.
#[unsafe(no_mangle)]
pub extern "C" fn lagoon_table_judge(
    cells: usize,
    faces: usize,
    volumes: &[u64],
    firsts: &[u64],
    seconds: &[u64],
    shares: &[u64],
    reaches: &[u64],
    masses: &[u64],
    fluxes: &[i64],
    outsides: &[u64],
    next: &mut [u64],
    claim: &[i64],
    releases: &[u64],
    found: &mut [u64],
) -> u64
    ensures { JudgeFromC
        (mesh_of cells faces volumes.now firsts.now seconds.now shares.now reaches.now)
        masses.now
        (claim_of fluxes.now outsides.now next.old claim.now releases.now)
        found.old result next.new found.new }
{
    let answer = judging::judge(
        cells, faces, volumes, firsts, seconds, shares, reaches, masses, fluxes, outsides, next,
        claim, releases,
    );
    answered(answer, found)
}
