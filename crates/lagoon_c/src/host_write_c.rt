// The calls of host_write.
ghost use Rattle.model.specs.Mesh.{mesh_of};
ghost use Rattle.record_layouts.specs.Layouts.{width_of, kind_number};
ghost use Rattle.host_read_promises.specs.Read.{width_named};
ghost use Rattle.host_read_promises.specs.Write.{kind_named, MeshWriteFromC, FieldWriteFromC, StepWriteFromC};

// The record of a mesh.
#[unsafe(no_mangle)]
pub extern "C" fn lagoon_write_mesh(
    width: u64,
    cells: usize,
    faces: usize,
    volumes: &[u64],
    firsts: &[u64],
    seconds: &[u64],
    shares: &[u64],
    reaches: &[u64],
    bytes: &mut [u8],
    found: &mut [u64],
) -> u64
    ensures { MeshWriteFromC (width_named width)
        (mesh_of cells faces volumes.now firsts.now seconds.now shares.now reaches.now)
        bytes.old found.old result bytes.new found.new }
{
    host_write::lagoon_write_mesh(
        width, cells, faces, volumes, firsts, seconds, shares, reaches, bytes, found,
    )
}

// The record of a field. The mesh is lent for the causes alone.
#[unsafe(no_mangle)]
pub extern "C" fn lagoon_write_field(
    width: u64,
    cells: usize,
    faces: usize,
    volumes: &[u64],
    firsts: &[u64],
    seconds: &[u64],
    shares: &[u64],
    reaches: &[u64],
    masses: &[u64],
    bytes: &mut [u8],
    found: &mut [u64],
) -> u64
    ensures { FieldWriteFromC (width_named width)
        (mesh_of cells faces volumes.now firsts.now seconds.now shares.now reaches.now)
        masses.now bytes.old found.old result bytes.new found.new }
{
    host_write::lagoon_write_field(
        width, cells, faces, volumes, firsts, seconds, shares, reaches, masses, bytes, found,
    )
}

// The record of a step, of the kind that the number names: 3, 4, 7 or 8.
#[unsafe(no_mangle)]
pub extern "C" fn lagoon_write_step(
    kind: u64,
    cells: usize,
    faces: usize,
    volumes: &[u64],
    firsts: &[u64],
    seconds: &[u64],
    shares: &[u64],
    reaches: &[u64],
    fluxes: &[i64],
    outsides: &[u64],
    releases: &[u64],
    bytes: &mut [u8],
    found: &mut [u64],
) -> u64
    ensures { StepWriteFromC (width_of kind)
        (mesh_of cells faces volumes.now firsts.now seconds.now shares.now reaches.now)
        (kind_number (width_of kind) (kind_named kind)) fluxes.now outsides.now releases.now bytes.old
        found.old
        result bytes.new found.new }
{
    host_write::lagoon_write_step(
        kind, cells, faces, volumes, firsts, seconds, shares, reaches, fluxes, outsides, releases,
        bytes, found,
    )
}
