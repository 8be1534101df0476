// The host's call straight through the records of a small lagoon, in short tables: an array is cleared before it is filled, and for few cells
// clearing tables as long as the run's limits takes longer than reading them.
#![tactic(auto)]

ghost use Rattle.std.specs.Prelude.{◌≡◌};
ghost use Rattle.model.specs.Mesh.{mesh_of, ceiling};
ghost use Rattle.model.specs.Causes.{mesh_values};
ghost use Rattle.record_writing.specs.Writing.{most_of};
ghost use Rattle.lagoon_straight.specs.Inner.{MeshPut};
ghost use Rattle.lagoon_straight.specs.Straight.{RecordsPut};

use record_layouts::Width;

// A quarter of the run's limits.
const FEW_CELLS: usize = 256;

const FEW_FACES: usize = 512;

const FEW_WORK: usize = 4 * FEW_CELLS + FEW_FACES;

// From the field record on, on a mesh that a writer of this width refuses no value of.
fn on_mesh(
    width: Width,
    cells: usize,
    faces: usize,
    volumes: &[u64],
    firsts: &[u64],
    seconds: &[u64],
    shares: &[u64],
    reaches: &[u64],
    field: &[u8],
    step: &[u8],
    bytes: &mut [u8],
) -> bool
    requires { mesh_values (most_of width) (mesh_of cells faces volumes.now firsts.now seconds.now shares.now reaches.now)
        ≡ mesh_values ceiling (mesh_of cells faces volumes.now firsts.now seconds.now shares.now reaches.now) }
    ensures { MeshPut width
        (mesh_of cells faces volumes.now firsts.now seconds.now shares.now reaches.now)
        field.now step.now bytes.old result bytes.new }
{
    let mut masses = [0u64; FEW_CELLS];
    if record_reading::read_field(width, cells, field, &mut masses).is_err() {
        return false;
    }
    let mut fluxes = [0i64; FEW_FACES];
    let mut outsides = [0u64; FEW_FACES];
    let mut releases = [0u64; FEW_CELLS];
    let read = record_reading::read_step(
        width,
        cells,
        faces,
        seconds,
        step,
        &mut fluxes,
        &mut outsides,
        &mut releases,
    );
    if read.is_err() {
        return false;
    }
    let mut next = [0u64; FEW_CELLS];
    let mut moved = [0i64; FEW_FACES];
    let mut work = [0u64; FEW_WORK];
    lagoon_straight::put_step(
        width,
        cells,
        faces,
        volumes,
        firsts,
        seconds,
        shares,
        reaches,
        &masses[..cells],
        &fluxes[..faces],
        &outsides[..faces],
        &releases[..cells],
        &mut next,
        &mut moved,
        &mut work,
        bytes,
    )
}

// The three records, of a lagoon that these tables hold. Where it is not done, no byte is written.
pub fn step(mesh: &[u8], field: &[u8], step: &[u8], bytes: &mut [u8]) -> bool
    ensures { RecordsPut mesh.now field.now step.now bytes.old result bytes.new }
{
    let mut volumes = [0u64; FEW_CELLS];
    let mut firsts = [0u64; FEW_FACES];
    let mut seconds = [0u64; FEW_FACES];
    let mut shares = [0u64; FEW_FACES];
    let mut reaches = [0u64; FEW_FACES];
    let answer = record_reading::read_mesh(
        FEW_CELLS,
        FEW_FACES,
        mesh,
        &mut volumes,
        &mut firsts,
        &mut seconds,
        &mut shares,
        &mut reaches,
    );
    let Ok(counts) = answer else {
        return false;
    };
    let cells = counts.cells;
    let faces = counts.faces;
    let width = counts.width;
    on_mesh(
        width,
        cells,
        faces,
        &volumes[..cells],
        &firsts[..faces],
        &seconds[..faces],
        &shares[..faces],
        &reaches[..faces],
        field,
        step,
        bytes,
    )
}
