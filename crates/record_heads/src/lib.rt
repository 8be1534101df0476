// The heads of the three records of document 01: their fields, what they are refused for, and how many bytes the record needs.
#![tactic(auto)]

ghost use Rattle.std.specs.Prelude.{◌≡◌, true, ◌≤◌, min, length};
ghost use Rattle.model.specs.Mesh.{max_cells, max_faces};
ghost use Rattle.model.specs.Causes.{counts_within};
ghost use Rattle.model.specs.Answers.{said};
ghost use Rattle.record_reader.specs.Numbers.{number_at, spelled_number};
ghost use Rattle.record_layouts.specs.Layouts.{mesh_kind, kind_number};
ghost use Rattle.record_heads.specs.Heads.{kind_in, width_in, cells_in, faces_in, step_faces_in, is_mesh_kind, is_step_kind, mesh_head_verdict, field_head_verdict, step_head_verdict, mesh_measured, field_needs, step_needs, length_said, mesh_length_said};

use model::needs::{between, need};
use model::{Cause, Refusal};
use record_layouts::{
    CELLS, FACES, FIELD_HEAD, FIELD_KIND, KIND, MESH_HEAD, MESH_KIND, OUTFALL_KIND, STEP_HEAD,
    StepKind, WATER_KIND, WIDER, Width, lengths, of_width,
};

// How many bytes a mesh record needs, and its width, which the records after it have.
#[derive(Clone, Copy)]
pub struct MeshLength {
    pub bytes: usize,
    pub width: Width,
}

// Cause 1, with the lesser of the caller's limits and document 01's.
pub fn counts_within(
    most_cells: usize,
    most_faces: usize,
    cells: usize,
    faces: usize,
) -> Result<(), Refusal>
    ensures { said result ≡ counts_within (min most_cells max_cells) (min most_faces max_faces) cells faces }
{
    let most_cells = lists::least(most_cells, model::MAX_CELLS);
    let most_faces = lists::least(most_faces, model::MAX_FACES);
    check_lent::counts_within(most_cells, most_faces, cells, faces)
}

// A field of a head, read by a reader that moves on to it.
fn field_after(bytes: &[u8], before: usize, width: usize) -> u64
    ensures { result ≡ spelled_number (number_at bytes.now before width) }
{
    record_reader::number_after(bytes, before, width).unwrap_or(0)
}

fn kind(bytes: &[u8]) -> u64
    requires { 2 ≤ length bytes.now }
    ensures { result ≡ kind_in bytes.now }
{
    field_after(bytes, 0, KIND)
}

// The cells that the head of a mesh or a field says.
pub fn cells(bytes: &[u8]) -> usize
    requires { 2 ≤ length bytes.now }
    ensures { result ≡ cells_in bytes.now }
{
    field_after(bytes, KIND, CELLS) as usize
}

// The faces that the head of a mesh says.
pub fn faces(bytes: &[u8]) -> usize
    requires { 4 ≤ length bytes.now }
    ensures { result ≡ faces_in bytes.now }
{
    field_after(bytes, KIND + CELLS, FACES) as usize
}

// The faces that the head of a step says.
fn step_faces(bytes: &[u8]) -> usize
    requires { 4 ≤ length bytes.now }
    ensures { result ≡ step_faces_in bytes.now }
{
    field_after(bytes, KIND, FACES) as usize
}

// Whether a head's kind is one of a mesh's.
fn is_mesh(kind: u64) -> bool
    ensures { result ≡ is_mesh_kind kind }
{
    if kind == MESH_KIND {
        return true;
    }
    kind == WIDER + MESH_KIND
}

// The width that the head of a mesh says.
pub fn mesh_width(bytes: &[u8]) -> Width
    requires { (2 ≤ length bytes.now) × (is_mesh_kind (kind_in bytes.now) ≡ true) }
    ensures { (mesh_kind result ≡ kind_in bytes.now) × (result ≡ width_in bytes.now) }
{
    if kind(bytes) == MESH_KIND {
        return Width::Narrow;
    }
    Width::Wide
}

// Whether a head's kind is one of a step's.
fn is_step(width: Width, kind: u64) -> bool
    ensures { result ≡ is_step_kind width kind }
{
    if kind == of_width(width, WATER_KIND) {
        return true;
    }
    kind == of_width(width, OUTFALL_KIND)
}

// The kind that the head of a step says.
pub fn step_kind(width: Width, bytes: &[u8]) -> StepKind
    requires { (2 ≤ length bytes.now) × (is_step_kind width (kind_in bytes.now) ≡ true) }
    ensures { kind_number width result ≡ kind_in bytes.now }
{
    if kind(bytes) == of_width(width, OUTFALL_KIND) {
        return StepKind::Outfalls;
    }
    StepKind::Water
}

// What the head of a mesh is refused for. No limit is above document 01's, whatever the caller sets.
pub fn mesh(most_cells: usize, most_faces: usize, bytes: &[u8]) -> Result<(), Refusal>
    ensures { said result ≡ mesh_head_verdict most_cells most_faces bytes.now }
{
    need(Cause::Length, 0, MESH_HEAD <= bytes.len())?;
    need(Cause::Head, 0, is_mesh(kind(bytes)))?;
    counts_within(most_cells, most_faces, cells(bytes), faces(bytes))
}

// What the head of a field on so many cells is refused for.
pub fn field(width: Width, expected: usize, bytes: &[u8]) -> Result<(), Refusal>
    ensures { said result ≡ field_head_verdict width expected bytes.now }
{
    need(Cause::Length, 0, FIELD_HEAD <= bytes.len())?;
    let expected_kind = of_width(width, FIELD_KIND);
    need(Cause::Head, 0, kind(bytes) == expected_kind)?;
    need(Cause::Head, 1, cells(bytes) == expected)?;
    let few = between(1, model::MAX_CELLS as u64, expected as u64);
    need(Cause::Limits, 0, few)
}

// What the head of a step on so many cells, through so many faces, is refused for.
pub fn step(
    width: Width,
    cells: usize,
    expected: usize,
    seconds: &[u64],
    bytes: &[u8],
) -> Result<(), Refusal>
    ensures { said result ≡ step_head_verdict width cells expected seconds.now bytes.now }
{
    need(Cause::Length, 0, STEP_HEAD <= bytes.len())?;
    need(Cause::Head, 0, is_step(width, kind(bytes)))?;
    need(Cause::Head, 1, step_faces(bytes) == expected)?;
    check_lent::counts_within(model::MAX_CELLS, model::MAX_FACES, cells, expected)?;
    need(Cause::Table, 2, expected <= seconds.len())
}

// How many bytes a mesh record needs, and of which width it is, as its head says.
pub fn mesh_length(
    most_cells: usize,
    most_faces: usize,
    bytes: &[u8],
) -> Result<MeshLength, Refusal>
    ensures { mesh_length_said result ≡ mesh_measured most_cells most_faces bytes.now }
{
    mesh(most_cells, most_faces, bytes)?;
    let c = cells(bytes);
    let f = faces(bytes);
    let width = mesh_width(bytes);
    Ok(MeshLength {
        bytes: lengths::mesh_bytes(width, c, f),
        width,
    })
}

// How many bytes the record of a field on so many cells needs.
pub fn field_length(width: Width, cells: usize, bytes: &[u8]) -> Result<usize, Refusal>
    ensures { length_said result ≡ field_needs width cells bytes.now }
{
    field(width, cells, bytes)?;
    Ok(lengths::field_bytes(width, cells))
}

// How many bytes the record of a step on these cells and faces needs, of the kind that its head says.
pub fn step_length(
    width: Width,
    cells: usize,
    faces: usize,
    seconds: &[u64],
    bytes: &[u8],
) -> Result<usize, Refusal>
    ensures { length_said result ≡ step_needs width cells faces seconds.now bytes.now }
{
    step(width, cells, faces, seconds, bytes)?;
    let length = lengths::step_bytes(width, step_kind(width, bytes), cells, faces, seconds);
    Ok(length)
}
