// How many bits and bytes a record has.
ghost use Rattle.std.specs.Prelude.{◌≡◌, ◌+◌, ◌*◌, ◌^◌, ◌≤◌, ◌<◌, length};
ghost use Rattle.model.specs.Mesh.{max_cells, max_faces};
ghost use Rattle.record_layouts.specs.Layouts.{mesh_kind, field_kind, kind_number, outside_bits, value_of, mass_width, release_bits, mesh_bits, step_bits, mesh_length, field_length, step_length};

use crate::body::Body;
use crate::{StepKind, Width};

// A head in bytes.
pub const MESH_HEAD: usize = (crate::KIND + crate::CELLS + crate::FACES + crate::MESH_ZEROS) / 8;

pub const FIELD_HEAD: usize = (crate::KIND + crate::CELLS) / 8;

pub const STEP_HEAD: usize = (crate::KIND + crate::FACES + crate::STEP_ZEROS) / 8;

// The bits of V, of K and of the size of U.
pub fn value_width(width: Width) -> usize
    ensures { result ≡ value_of width }
{
    match width {
        Width::Narrow => Body::NARROW_VALUE,
        Width::Wide => Body::WIDE_VALUE,
    }
}

// The bits of m, and of a release where there is one.
pub fn mass_width(width: Width) -> usize
    ensures { result ≡ mass_width width }
{
    match width {
        Width::Narrow => Body::NARROW_MASS,
        Width::Wide => Body::WIDE_MASS,
    }
}

pub fn mesh_bits(width: Width, cells: usize, faces: usize) -> usize
    requires { (cells ≤ max_cells) × (faces ≤ max_faces) }
    ensures { result ≡ mesh_bits (mesh_kind width) cells faces }
{
    let value = value_width(width);
    8 * MESH_HEAD + cells * value + faces * (Body::ENDS_AND_SHARE + value)
}

// The bit after so many outside values from a bit on: there the releases begin, and not at the next whole byte.
pub fn after_outsides(first: usize, outsides: usize) -> usize
    requires { first + outsides * outside_bits < 2 ^ 64 }
    ensures { result ≡ first + outsides * outside_bits }
{
    first + outsides * Body::OUTSIDE
}

// The bits of a release.
pub fn release_width(width: Width, kind: StepKind) -> usize
    ensures { result ≡ release_bits (kind_number width kind) }
{
    match kind {
        StepKind::Water => 0,
        StepKind::Outfalls => mass_width(width),
    }
}

pub fn step_bits(width: Width, kind: StepKind, cells: usize, faces: usize, seconds: &[u64]) -> usize
    requires { (cells ≤ max_cells) × (faces ≤ max_faces) × (faces ≤ length seconds.now) }
    ensures { result ≡ step_bits (kind_number width kind) cells faces seconds.now }
{
    let outsides = record_sections::count_marked(model::RIM, faces, seconds);
    let flux = Body::SIGN + value_width(width);
    let release = after_outsides(8 * STEP_HEAD + faces * flux, outsides);
    release + cells * release_width(width, kind)
}

pub fn mesh_bytes(width: Width, cells: usize, faces: usize) -> usize
    requires { (cells ≤ max_cells) × (faces ≤ max_faces) }
    ensures { result ≡ mesh_length (mesh_kind width) cells faces }
{
    record_bits::bytes_for(mesh_bits(width, cells, faces))
}

pub fn field_bytes(width: Width, cells: usize) -> usize
    requires { cells ≤ max_cells }
    ensures { result ≡ field_length (field_kind width) cells }
{
    record_bits::bytes_for(8 * FIELD_HEAD + cells * mass_width(width))
}

pub fn step_bytes(
    width: Width,
    kind: StepKind,
    cells: usize,
    faces: usize,
    seconds: &[u64],
) -> usize
    requires { (cells ≤ max_cells) × (faces ≤ max_faces) × (faces ≤ length seconds.now) }
    ensures { result ≡ step_length (kind_number width kind) cells faces seconds.now }
{
    record_bits::bytes_for(step_bits(width, kind, cells, faces, seconds))
}
