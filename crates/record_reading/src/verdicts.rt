// What a reading comes to, for tables of so many entries: the head's causes, then 11, 2 and 12.
ghost use Rattle.std.specs.Prelude.{◌≡◌, ◌≤◌, length};
ghost use Rattle.model.specs.Mesh.{max_cells, max_faces};
ghost use Rattle.model.specs.Answers.{said};
ghost use Rattle.record_layouts.specs.Layouts.{mesh_kind, field_kind, kind_number};
ghost use Rattle.record_heads.specs.Heads.{kind_in, cells_in, faces_in};
ghost use Rattle.record_reading.specs.Reading.{mesh_body_verdict, field_body_verdict, step_body_verdict, mesh_read, field_read, step_read};
ghost use Rattle.record_reading.specs.Answers.{mesh_said, step_read_said};

use crate::MeshCounts;
use model::needs::{long, need};
use model::{Cause, Refusal, positions};
use record_layouts::{StepKind, Width, lengths};

fn mesh_body(
    bytes: &[u8],
    width: Width,
    cells: usize,
    faces: usize,
    volumes: usize,
    firsts: usize,
    seconds: usize,
    shares: usize,
    reaches: usize,
) -> Result<(), Refusal>
    requires { (cells ≡ cells_in bytes.now) × (faces ≡ faces_in bytes.now) × (cells ≤ max_cells) × (faces ≤ max_faces)
        × (mesh_kind width ≡ kind_in bytes.now) }
    ensures { said result ≡ mesh_body_verdict bytes.now volumes firsts seconds shares reaches }
{
    let end = lengths::mesh_bits(width, cells, faces);
    need(Cause::Length, 0, bytes.len() == record_bits::bytes_for(end))?;
    long(positions::VOLUMES, cells, volumes)?;
    long(positions::FIRSTS, faces, firsts)?;
    long(positions::SECONDS, faces, seconds)?;
    long(positions::SHARES, faces, shares)?;
    long(positions::REACHES, faces, reaches)?;
    record_zeros::mesh(bytes, end)
}

fn field_body(width: Width, cells: usize, bytes: &[u8], masses: usize) -> Result<(), Refusal>
    requires { (cells ≤ max_cells) × (field_kind width ≡ kind_in bytes.now) }
    ensures { said result ≡ field_body_verdict cells bytes.now masses }
{
    need(
        Cause::Length,
        0,
        bytes.len() == lengths::field_bytes(width, cells),
    )?;
    long(positions::MASSES, cells, masses)
}

fn step_body(
    width: Width,
    kind: StepKind,
    cells: usize,
    faces: usize,
    seconds: &[u64],
    bytes: &[u8],
    fluxes: usize,
    outsides: usize,
    releases: usize,
) -> Result<(), Refusal>
    requires { (kind_number width kind ≡ kind_in bytes.now) × (cells ≤ max_cells) × (faces ≤ max_faces) × (faces ≤ length seconds.now) }
    ensures { said result ≡ step_body_verdict cells faces seconds.now bytes.now fluxes outsides releases }
{
    let end = lengths::step_bits(width, kind, cells, faces, seconds);
    need(Cause::Length, 0, bytes.len() == record_bits::bytes_for(end))?;
    long(positions::FLUXES, faces, fluxes)?;
    long(positions::OUTSIDES, faces, outsides)?;
    long(positions::RELEASES, cells, releases)?;
    record_zeros::step(bytes, faces, end, lengths::value_width(width))
}

pub fn mesh(
    most_cells: usize,
    most_faces: usize,
    bytes: &[u8],
    volumes: usize,
    firsts: usize,
    seconds: usize,
    shares: usize,
    reaches: usize,
) -> Result<MeshCounts, Refusal>
    ensures { mesh_said result ≡ mesh_read most_cells most_faces bytes.now volumes firsts seconds shares reaches }
{
    record_heads::mesh(most_cells, most_faces, bytes)?;
    let cells = record_heads::cells(bytes);
    let faces = record_heads::faces(bytes);
    let width = record_heads::mesh_width(bytes);
    mesh_body(
        bytes, width, cells, faces, volumes, firsts, seconds, shares, reaches,
    )?;
    Ok(MeshCounts {
        cells,
        faces,
        width,
    })
}

pub fn field(width: Width, cells: usize, bytes: &[u8], masses: usize) -> Result<(), Refusal>
    ensures { said result ≡ field_read width cells bytes.now masses }
{
    record_heads::field(width, cells, bytes)?;
    field_body(width, cells, bytes, masses)
}

pub fn step(
    width: Width,
    cells: usize,
    faces: usize,
    seconds: &[u64],
    bytes: &[u8],
    fluxes: usize,
    outsides: usize,
    releases: usize,
) -> Result<StepKind, Refusal>
    ensures { step_read_said width result ≡ step_read width cells faces seconds.now bytes.now fluxes outsides releases }
{
    record_heads::step(width, cells, faces, seconds, bytes)?;
    let kind = record_heads::step_kind(width, bytes);
    step_body(
        width, kind, cells, faces, seconds, bytes, fluxes, outsides, releases,
    )?;
    Ok(kind)
}
