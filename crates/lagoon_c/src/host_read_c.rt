// The calls of host_read.
ghost use Rattle.host_read_promises.specs.Read.{width_named, lent_mesh, MeshReadFromC, FieldReadFromC, step_finds, StepReadFromC};

// A mesh record read into lent tables, within the limits of document 01.
#[unsafe(no_mangle)]
pub extern "C" fn lagoon_read_mesh(
    bytes: &[u8],
    volumes: &mut [u64],
    firsts: &mut [u64],
    seconds: &mut [u64],
    shares: &mut [u64],
    reaches: &mut [u64],
    found: &mut [u64],
) -> u64
    ensures { MeshReadFromC bytes.now
        (lent_mesh volumes.old firsts.old seconds.old shares.old reaches.old) found.old
        result
        (lent_mesh volumes.new firsts.new seconds.new shares.new reaches.new) found.new }
{
    host_read::lagoon_read_mesh(bytes, volumes, firsts, seconds, shares, reaches, found)
}

// The record of a field on so many cells, read into lent masses.
#[unsafe(no_mangle)]
pub extern "C" fn lagoon_read_field(
    width: u64,
    cells: usize,
    bytes: &[u8],
    masses: &mut [u64],
) -> u64
    ensures { FieldReadFromC (width_named width) cells bytes.now masses.old result masses.new }
{
    host_read::lagoon_read_field(width, cells, bytes, masses)
}

// The record of a step on these cells and faces, read into lent tables.
#[unsafe(no_mangle)]
pub extern "C" fn lagoon_read_step(
    width: u64,
    cells: usize,
    faces: usize,
    seconds: &[u64],
    bytes: &[u8],
    fluxes: &mut [i64],
    outsides: &mut [u64],
    releases: &mut [u64],
    found: &mut [u64],
) -> u64
    ensures { StepReadFromC
        (step_finds (width_named width) cells faces seconds.now bytes.now fluxes.old outsides.old
        releases.old)
        cells faces seconds.now bytes.now fluxes.old outsides.old releases.old found.old
        result fluxes.new outsides.new releases.new found.new }
{
    host_read::lagoon_read_step(
        width, cells, faces, seconds, bytes, fluxes, outsides, releases, found,
    )
}
