// The readers of records, for a host program in C.
#![tactic(auto)]

ghost use Rattle.std.specs.Prelude.{◌≡◌, ◌<◌, ◌^◌};
ghost use Rattle.record_reading.specs.Answers.{mesh_said, step_read_said};
ghost use Rattle.host_answer.specs.Number.{number_of};
ghost use Rattle.host_answer.specs.Found.{alone, Answered};
ghost use Rattle.host_read_promises.specs.Read.{width_number, width_named, counts_found, lent_mesh, MeshReadFromC, FieldReadFromC, step_finds, StepReadFromC};

use host_numbers::{answer_number, fill1, fill3, number_of};
use model::Refusal;
use record_layouts::{StepKind, Width};
use record_reading::MeshCounts;

// The number of a width: 0 narrow, 1 wide.
pub fn width_number(width: Width) -> u64
    ensures { result ≡ width_number width }
{
    match width {
        Width::Narrow => 0,
        Width::Wide => 1,
    }
}

// The width that a host names: 0 for the narrow records, any other number for the wide ones.
pub fn width_named(named: u64) -> Width
    ensures { result ≡ width_named named }
{
    if named == 0 {
        return Width::Narrow;
    }
    Width::Wide
}

// The answer of a mesh's reader: found are cells, faces and width.
fn mesh_answered(answer: Result<MeshCounts, Refusal>, found: &mut [u64]) -> u64
    requires { number_of (mesh_said answer) < 2 ^ 64 }
    ensures { Answered counts_found (mesh_said answer) found.old result found.new }
{
    match answer {
        Ok(counts) => {
            let width = counts.width;
            fill3(
                found,
                counts.cells as u64,
                counts.faces as u64,
                width_number(width),
            );
            0
        }
        Err(refusal) => number_of(refusal),
    }
}

// A mesh record read into lent tables, within the limits of document 01.
#[unsafe(no_mangle)]
pub extern "C" fn lagoon_read_mesh(
    bytes: &[u8],
    volumes: &mut [u64],
    firsts: &mut [u64],
    seconds: &mut [u64],
    shares: &mut [u64],
    reaches: &mut [u64],
    found: &mut [u64],
) -> u64
    ensures { MeshReadFromC bytes.now
        (lent_mesh volumes.old firsts.old seconds.old shares.old reaches.old) found.old
        result
        (lent_mesh volumes.new firsts.new seconds.new shares.new reaches.new) found.new }
{
    let answer = record_reading::read_mesh(
        model::MAX_CELLS,
        model::MAX_FACES,
        bytes,
        volumes,
        firsts,
        seconds,
        shares,
        reaches,
    );
    mesh_answered(answer, found)
}

// The record of a field on so many cells, read into lent masses.
#[unsafe(no_mangle)]
pub extern "C" fn lagoon_read_field(
    width: u64,
    cells: usize,
    bytes: &[u8],
    masses: &mut [u64],
) -> u64
    ensures { FieldReadFromC (width_named width) cells bytes.now masses.old result masses.new }
{
    let answer = record_reading::read_field(width_named(width), cells, bytes, masses);
    answer_number(answer)
}

// The answer of a step's reader: found is the number of its kind.
fn step_answered(width: Width, answer: Result<StepKind, Refusal>, found: &mut [u64]) -> u64
    requires { number_of (step_read_said width answer) < 2 ^ 64 }
    ensures { Answered alone (step_read_said width answer) found.old result found.new }
{
    match answer {
        Ok(kind) => {
            fill1(found, record_layouts::kind_number(width, kind));
            0
        }
        Err(refusal) => number_of(refusal),
    }
}

// The record of a step on these cells and faces, read into lent tables.
#[unsafe(no_mangle)]
pub extern "C" fn lagoon_read_step(
    width: u64,
    cells: usize,
    faces: usize,
    seconds: &[u64],
    bytes: &[u8],
    fluxes: &mut [i64],
    outsides: &mut [u64],
    releases: &mut [u64],
    found: &mut [u64],
) -> u64
    ensures { StepReadFromC
        (step_finds (width_named width) cells faces seconds.now bytes.now fluxes.old outsides.old
        releases.old)
        cells faces seconds.now bytes.now fluxes.old outsides.old releases.old found.old
        result fluxes.new outsides.new releases.new found.new }
{
    let kinds = width_named(width);
    let answer = record_reading::read_step(
        kinds, cells, faces, seconds, bytes, fluxes, outsides, releases,
    );
    step_answered(kinds, answer, found)
}
