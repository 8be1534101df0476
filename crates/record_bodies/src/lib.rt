// The body of a record, read from the part of the record that begins at the head's end, into the counted entries of the tables.
#![tactic(auto)]

ghost use Rattle.std.specs.Prelude.{◌≡◌, ℕ, ◌+◌, ◌*◌, ◌^◌, ◌≤◌, ◌<◌, length};
ghost use Rattle.lists.specs.Table.{table, over};
ghost use Rattle.model.specs.Mesh.{mesh_of};
ghost use Rattle.model.specs.Meshes.{over_mesh};
ghost use Rattle.record_bits.specs.Field.{bits_at};
ghost use Rattle.record_sections.specs.Sections.{shape_bits, column_in};
ghost use Rattle.record_layouts.specs.Layouts.{mesh_kind, field_kind, kind_number, mass_width, field_body, step_body};
ghost use Rattle.record_bodies.specs.Bodies.{FacesRoom, FacesFilled, MeshRoom, body_mesh, StepRoom, StepFilled};

use record_layouts::body::Body;
use record_layouts::{StepKind, Width, lengths};
use record_sections::{read_column, read_marked, read_signed};

// The four fields of each of n faces from a bit on: they stand one after another, and are read as one number.
fn read_faces(
    value: usize,
    body: &[u8],
    first: usize,
    n: usize,
    firsts: &mut [u64],
    seconds: &mut [u64],
    shares: &mut [u64],
    reaches: &mut [u64],
)
    requires { FacesRoom value body.now first n (length firsts.old) (length seconds.old) (length shares.old) (length reaches.old) }
    ensures { FacesFilled value body.now first n
        firsts.old seconds.old shares.old reaches.old
        firsts.new seconds.new shares.new reaches.new }
{
    let face = Body::ENDS_AND_SHARE + value;
    let share = value + Body::SHARE;
    let ends = share + Body::END;
    for f in 0..n {
        let row = record_bits::read_bits(body, first + f * face, face);
        firsts[f] = record_bits::part(row, ends, Body::END);
        seconds[f] = record_bits::part(row, share, Body::END);
        shares[f] = record_bits::part(row, value, Body::SHARE);
        reaches[f] = record_bits::part(row, 0, value);
    }
}

pub fn mesh(
    width: Width,
    cells: usize,
    faces: usize,
    body: &[u8],
    volumes: &mut [u64],
    firsts: &mut [u64],
    seconds: &mut [u64],
    shares: &mut [u64],
    reaches: &mut [u64],
)
    requires { MeshRoom (mesh_kind width) body.now
        (mesh_of cells faces volumes.old firsts.old seconds.old shares.old reaches.old) }
    ensures { mesh_of cells faces volumes.new firsts.new seconds.new shares.new reaches.new
        ≡ over_mesh (body_mesh (mesh_kind width) cells faces body.now)
        (mesh_of cells faces volumes.old firsts.old seconds.old shares.old reaches.old) }
{
    let value = lengths::value_width(width);
    read_column(body, 0, value, value, cells, volumes);
    read_faces(
        value,
        body,
        cells * value,
        faces,
        firsts,
        seconds,
        shares,
        reaches,
    );
}

// The masses, each width by itself: of a width and a place that it knows the compiler makes whole words.
fn read_masses(width: Width, cells: usize, body: &[u8], masses: &mut [u64])
    requires body_bound { (8 * length body.now < 2 ^ 64) × (cells ≤ length masses.old) }
    requires by_index { (i : ℕ) → i < cells → 0 + i * mass_width width + mass_width width ≤ 8 * length body.now }
    ensures { masses.new
        ≡ over (table cells (λ i. bits_at body.now (0 + i * mass_width width) (mass_width width))) masses.old }
{
    match width {
        Width::Narrow => {
            let mass = Body::NARROW_MASS;
            read_column(body, 0, mass, mass, cells, masses);
        }
        Width::Wide => {
            let mass = Body::WIDE_MASS;
            read_column(body, 0, mass, mass, cells, masses);
        }
    }
}

pub fn field(width: Width, cells: usize, body: &[u8], masses: &mut [u64])
    requires { (8 * length body.now < 2 ^ 64) × (shape_bits (field_body (field_kind width) cells) ≤ 8 * length body.now) × (cells ≤ length masses.old) }
    ensures { masses.new ≡ over (column_in body.now (field_body (field_kind width) cells) 0 0) masses.old }
{
    read_masses(width, cells, body, masses);
}

// The fluxes of all faces, then the outside values, then the releases, which have no bits in the kind without outfalls and read 0 there.
pub fn step(
    width: Width,
    kind: StepKind,
    cells: usize,
    faces: usize,
    seconds: &[u64],
    body: &[u8],
    fluxes: &mut [i64],
    outsides: &mut [u64],
    releases: &mut [u64],
)
    requires { StepRoom (kind_number width kind) cells faces seconds.now body.now (length fluxes.old) (length outsides.old) (length releases.old) }
    ensures { StepFilled faces body.now (step_body (kind_number width kind) cells faces seconds.now) 0
        fluxes.old outsides.old releases.old fluxes.new outsides.new releases.new }
{
    let value = lengths::value_width(width);
    let first = Body::new(faces * (Body::SIGN + value));
    let bits = lengths::release_width(width, kind);
    read_signed(body, 0, value, faces, fluxes);
    let release = read_marked(
        body,
        first.at,
        Body::OUTSIDE,
        model::RIM,
        faces,
        seconds,
        outsides,
    );
    read_column(body, release, bits, bits, cells, releases);
}
