// A record that passed, put into the bytes field by field of its head and column by column of its body, and how many bytes it takes.
#![tactic(auto)]

ghost use Rattle.std.specs.Prelude.{true, ℕ, ◌+◌, ◌*◌, ◌^◌, ◌≤◌, ◌<◌, length, get_or};
ghost use Rattle.record_sections.specs.Columns.{PutColumn};
ghost use Rattle.model.specs.Mesh.{mesh_of};
ghost use Rattle.record_layouts.specs.Layouts.{mesh_kind, field_kind, kind_number, mass_width, field_head_bits, mesh_record, field_record, step_record, mesh_length, field_length, step_length};
ghost use Rattle.record_putting.specs.Putting.{MeshWhole, FieldWhole, StepWhole, Wrote};

use record_bits::write_bits;
use record_layouts::body::Body;
use record_layouts::{
    CELLS, FACES, FIELD_KIND, KIND, MESH_KIND, MESH_ZEROS, STEP_ZEROS, StepKind, Width, lengths,
};
use record_sections::{count_marked, pad, put_column, put_marked, put_signs, put_sizes};

// In bits.
const FIELD_HEAD: usize = 8 * lengths::FIELD_HEAD;

pub fn mesh(
    width: Width,
    cells: usize,
    faces: usize,
    volumes: &[u64],
    firsts: &[u64],
    seconds: &[u64],
    shares: &[u64],
    reaches: &[u64],
    bytes: &mut [u8],
) -> usize
    requires { MeshWhole (mesh_kind width) (mesh_of cells faces volumes.now firsts.now seconds.now shares.now reaches.now) bytes.old }
    ensures { Wrote bytes.old
        (mesh_record (mesh_kind width) (mesh_of cells faces
        volumes.now firsts.now seconds.now shares.now reaches.now))
        (mesh_length (mesh_kind width) cells faces) bytes.new result }
{
    let kind = record_layouts::of_width(width, MESH_KIND);
    let value = lengths::value_width(width);
    let face = Body::ENDS_AND_SHARE + value;
    let head = 8 * lengths::MESH_HEAD;
    let zeros = head - MESH_ZEROS;
    let first = head + cells * value;
    let second = first + Body::END;
    let share = second + Body::END;
    let reach = share + Body::SHARE;
    write_bits(bytes, 0, KIND, kind);
    write_bits(bytes, KIND, CELLS, cells as u64);
    write_bits(bytes, KIND + CELLS, FACES, faces as u64);
    write_bits(bytes, zeros, MESH_ZEROS, 0);
    put_column(bytes, head, value, value, cells, volumes);
    put_column(bytes, first, face, Body::END, faces, firsts);
    put_column(bytes, second, face, Body::END, faces, seconds);
    put_column(bytes, share, face, Body::SHARE, faces, shares);
    put_column(bytes, reach, face, value, faces, reaches);
    pad(bytes, first + faces * face)
}

// The masses, each width by itself: of a width and a place that it knows the compiler makes whole words.
fn put_masses(bytes: &mut [u8], width: Width, cells: usize, masses: &[u64])
    requires { (cells ≤ length masses.now) × ((i : ℕ) → i < cells
        → (field_head_bits + i * mass_width width + mass_width width ≤ 8 * length bytes.old)
        × (field_head_bits + i * mass_width width + mass_width width < 2 ^ 64))
        × ((i : ℕ) → i < cells → get_or masses.now i 0 < 2 ^ mass_width width) }
    ensures { PutColumn bytes.old cells (λ _. true) (λ i. field_head_bits + i * mass_width width) (mass_width width)
        (λ i. get_or masses.now i 0) bytes.new }
{
    match width {
        Width::Narrow => {
            let mass = Body::NARROW_MASS;
            put_column(bytes, FIELD_HEAD, mass, mass, cells, masses);
        }
        Width::Wide => {
            let mass = Body::WIDE_MASS;
            put_column(bytes, FIELD_HEAD, mass, mass, cells, masses);
        }
    }
}

pub fn field(width: Width, cells: usize, masses: &[u64], bytes: &mut [u8]) -> usize
    requires { FieldWhole (field_kind width) cells masses.now bytes.old }
    ensures { Wrote bytes.old (field_record (field_kind width) cells masses.now)
        (field_length (field_kind width) cells) bytes.new result }
{
    let kind = record_layouts::of_width(width, FIELD_KIND);
    let mass = lengths::mass_width(width);
    write_bits(bytes, 0, KIND, kind);
    write_bits(bytes, KIND, CELLS, cells as u64);
    put_masses(bytes, width, cells, masses);
    pad(bytes, FIELD_HEAD + cells * mass)
}

// Zero bits up to a whole byte come once, after the releases.
pub fn step(
    width: Width,
    kind: StepKind,
    cells: usize,
    faces: usize,
    seconds: &[u64],
    fluxes: &[i64],
    outsides: &[u64],
    bytes: &mut [u8],
    releases: &[u64],
) -> usize
    requires { StepWhole (kind_number width kind) cells faces seconds.now fluxes.now outsides.now releases.now bytes.old }
    ensures { Wrote bytes.old
        (step_record (kind_number width kind) cells faces seconds.now fluxes.now outsides.now releases.now)
        (step_length (kind_number width kind) cells faces seconds.now) bytes.new result }
{
    let value = lengths::value_width(width);
    let flux = Body::SIGN + value;
    let head = 8 * lengths::STEP_HEAD;
    let zeros = head - STEP_ZEROS;
    let size = head + Body::SIGN;
    let first = head + faces * flux;
    let outside = count_marked(model::RIM, faces, seconds);
    let release = lengths::after_outsides(first, outside);
    let bits = lengths::release_width(width, kind);
    write_bits(bytes, 0, KIND, record_layouts::kind_number(width, kind));
    write_bits(bytes, KIND, FACES, faces as u64);
    write_bits(bytes, zeros, STEP_ZEROS, 0);
    put_signs(bytes, head, flux, faces, fluxes);
    put_sizes(bytes, size, flux, value, faces, fluxes);
    put_marked(
        bytes,
        first,
        Body::OUTSIDE,
        model::RIM,
        faces,
        seconds,
        outsides,
    );
    put_column(bytes, release, bits, bits, cells, releases);
    pad(bytes, release + cells * bits)
}
