// The writers of records, for a host program in C.
#![tactic(auto)]

ghost use Rattle.std.specs.Prelude.{◌≡◌, ◌<◌, ◌^◌};
ghost use Rattle.model.specs.Mesh.{mesh_of};
ghost use Rattle.record_layouts.specs.Layouts.{width_of, kind_number};
ghost use Rattle.record_writing.specs.Writing.{write_said};
ghost use Rattle.host_answer.specs.Number.{number_of};
ghost use Rattle.host_answer.specs.Found.{alone, Answered};
ghost use Rattle.host_read_promises.specs.Read.{width_named};
ghost use Rattle.host_read_promises.specs.Write.{kind_named, MeshWriteFromC, FieldWriteFromC, StepWriteFromC};

use host_numbers::{fill1, number_of};
use host_read::width_named;
use model::Refusal;
use record_layouts::{StepKind, Width};

// The kinds of a step that hold releases.
const OUTFALLS: u64 = 4;

const WIDE_OUTFALLS: u64 = 8;

// From this kind on records are wide.
const FIRST_WIDE: u64 = 5;

// The answer of a writer: found is the length.
fn answered(answer: Result<u64, Refusal>, found: &mut [u64]) -> u64
    requires { number_of (write_said answer) < 2 ^ 64 }
    ensures { Answered alone (write_said answer) found.old result found.new }
{
    match answer {
        Ok(length) => {
            fill1(found, length);
            0
        }
        Err(refusal) => number_of(refusal),
    }
}

// The record of a mesh.
#[unsafe(no_mangle)]
pub extern "C" fn lagoon_write_mesh(
    width: u64,
    cells: usize,
    faces: usize,
    volumes: &[u64],
    firsts: &[u64],
    seconds: &[u64],
    shares: &[u64],
    reaches: &[u64],
    bytes: &mut [u8],
    found: &mut [u64],
) -> u64
    ensures { MeshWriteFromC (width_named width)
        (mesh_of cells faces volumes.now firsts.now seconds.now shares.now reaches.now)
        bytes.old found.old result bytes.new found.new }
{
    let answer = record_writing::write_mesh(
        width_named(width),
        cells,
        faces,
        volumes,
        firsts,
        seconds,
        shares,
        reaches,
        bytes,
    );
    answered(answer, found)
}

// The record of a field. The mesh is lent for the causes alone.
#[unsafe(no_mangle)]
pub extern "C" fn lagoon_write_field(
    width: u64,
    cells: usize,
    faces: usize,
    volumes: &[u64],
    firsts: &[u64],
    seconds: &[u64],
    shares: &[u64],
    reaches: &[u64],
    masses: &[u64],
    bytes: &mut [u8],
    found: &mut [u64],
) -> u64
    ensures { FieldWriteFromC (width_named width)
        (mesh_of cells faces volumes.now firsts.now seconds.now shares.now reaches.now)
        masses.now bytes.old found.old result bytes.new found.new }
{
    let answer = record_writing::write_field(
        width_named(width),
        cells,
        faces,
        volumes,
        firsts,
        seconds,
        shares,
        reaches,
        masses,
        bytes,
    );
    answered(answer, found)
}

// The width of a kind.
fn width_of(kind: u64) -> Width
    ensures { result ≡ width_of kind }
{
    if FIRST_WIDE <= kind {
        return Width::Wide;
    }
    Width::Narrow
}

// The kind of a step that a host names by its number: any number but the two of OUTFALLS is of one that holds no releases.
fn kind_named(named: u64) -> StepKind
    ensures { result ≡ kind_named named }
{
    if named == OUTFALLS {
        return StepKind::Outfalls;
    }
    if named == WIDE_OUTFALLS {
        return StepKind::Outfalls;
    }
    StepKind::Water
}

// The record of a step, of the kind that the number names: 3, 4, 7 or 8.
#[unsafe(no_mangle)]
pub extern "C" fn lagoon_write_step(
    kind: u64,
    cells: usize,
    faces: usize,
    volumes: &[u64],
    firsts: &[u64],
    seconds: &[u64],
    shares: &[u64],
    reaches: &[u64],
    fluxes: &[i64],
    outsides: &[u64],
    releases: &[u64],
    bytes: &mut [u8],
    found: &mut [u64],
) -> u64
    ensures { StepWriteFromC (width_of kind)
        (mesh_of cells faces volumes.now firsts.now seconds.now shares.now reaches.now)
        (kind_number (width_of kind) (kind_named kind)) fluxes.now outsides.now releases.now bytes.old
        found.old
        result bytes.new found.new }
{
    let answer = record_writing::write_step(
        width_of(kind),
        kind_named(kind),
        cells,
        faces,
        volumes,
        firsts,
        seconds,
        shares,
        reaches,
        fluxes,
        outsides,
        bytes,
        releases,
    );
    answered(answer, found)
}
