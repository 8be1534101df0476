// Causes 1 to 10 of document 01, and 18 of document 02, on lent tables. No table is written.
#![tactic(auto)]

pub mod field;
mod quick;
mod raised;

ghost use Rattle.std.specs.Prelude.{◌≡◌, ◌≤◌, true, length};
ghost use Rattle.lists.specs.Fold.{sum};
ghost use Rattle.model.specs.Mesh.{mesh_of, ceiling};
ghost use Rattle.model.specs.Causes.{accepted, fine, mesh_values, ◌and_then◌, call_of, water_of, counts_within, mesh_verdict, mesh_field_verdict, values_verdict, verdict, cells_only};
ghost use Rattle.model.specs.Claims.{claim_of, unworked_verdict};
ghost use Rattle.model.specs.Accepted.{StepLent};
ghost use Rattle.model.specs.Answers.{said};
ghost use Rattle.model.specs.Calls.{mass_in};
ghost use Rattle.checks.specs.Total.{total_said};
ghost use Rattle.checks.specs.Lent.{tables_lent};

use model::Refusal;

// The cells for which a short array is enough.
const FEW: usize = 512;

// Cause 1, with limits that the caller sets: the run program's are lower than the mesh's own.
pub fn counts_within(
    most_cells: usize,
    most_faces: usize,
    cells: usize,
    faces: usize,
) -> Result<(), Refusal>
    ensures { said result ≡ counts_within most_cells most_faces cells faces }
{
    check_lent::counts_within(most_cells, most_faces, cells, faces)
}

// Causes 1 to 5.
pub fn check_mesh(
    cells: usize,
    faces: usize,
    volumes: &[u64],
    firsts: &[u64],
    seconds: &[u64],
    shares: &[u64],
    reaches: &[u64],
) -> Result<(), Refusal>
    ensures { said result ≡ mesh_verdict
        (mesh_of cells faces volumes.now firsts.now seconds.now shares.now reaches.now) }
{
    check_lent::mesh_lent(cells, faces, volumes, firsts, seconds, shares, reaches)?;
    check_mesh::values(
        cells,
        faces,
        volumes,
        firsts,
        seconds,
        shares,
        reaches,
        model::CEILING,
    )
}

// Causes 1 to 6.
pub fn check_field(
    cells: usize,
    faces: usize,
    volumes: &[u64],
    firsts: &[u64],
    seconds: &[u64],
    shares: &[u64],
    reaches: &[u64],
    masses: &[u64],
) -> Result<(), Refusal>
    ensures { said result ≡ mesh_field_verdict
        (mesh_of cells faces volumes.now firsts.now seconds.now shares.now reaches.now)
        masses.now }
{
    check_lent::field_lent(
        cells, faces, volumes, firsts, seconds, shares, reaches, masses,
    )?;
    check_mesh::values(
        cells,
        faces,
        volumes,
        firsts,
        seconds,
        shares,
        reaches,
        model::CEILING,
    )?;
    field::values(cells, volumes, masses)
}

// The causes of a call that is lent cells alone: those of a mesh without faces.
pub fn check_cells(cells: usize, volumes: &[u64], masses: &[u64]) -> Result<(), Refusal>
    ensures { said result ≡ mesh_field_verdict (cells_only cells volumes.now) masses.now }
{
    let none = &volumes[..0];
    check_field(cells, 0, volumes, none, none, none, none, masses)
}

// The sum of a field's masses.
pub fn total(cells: usize, volumes: &[u64], masses: &[u64]) -> Result<u64, Refusal>
    ensures { total_said result ≡ (
        mesh_field_verdict (cells_only cells volumes.now) masses.now
        and_then accepted (sum cells (mass_in masses.now))
        ) }
{
    check_cells(cells, volumes, masses)?;
    Ok(field::sum_of(cells, masses))
}

// Causes 3 to 10 and 18, of tables that are long enough.
pub fn step_values(
    cells: usize,
    faces: usize,
    volumes: &[u64],
    firsts: &[u64],
    seconds: &[u64],
    shares: &[u64],
    reaches: &[u64],
    masses: &[u64],
    fluxes: &[i64],
    outsides: &[u64],
    releases: &[u64],
) -> Result<(), Refusal>
    requires { StepLent
        (mesh_of cells faces volumes.now firsts.now seconds.now shares.now reaches.now)
        masses.now
        (water_of fluxes.now outsides.now releases.now) }
    ensures { said result ≡ values_verdict
        (mesh_of cells faces volumes.now firsts.now seconds.now shares.now reaches.now)
        masses.now
        (water_of fluxes.now outsides.now releases.now) }
{
    check_mesh::values(
        cells,
        faces,
        volumes,
        firsts,
        seconds,
        shares,
        reaches,
        model::CEILING,
    )?;
    field::values(cells, volumes, masses)?;
    raised::values(cells, volumes, masses, releases)?;
    check_water::values(faces, seconds, reaches, fluxes, outsides, model::CEILING)?;
    check_flows::values(cells, faces, volumes, firsts, seconds, fluxes)
}

// The same on lent room, of a mesh whose values may be known to be accepted. What the room holds is no matter, before or after. The causes
// are sought one by one from two places, so that they are not compiled into the step, with the arrays that they take.
fn values_in(
    known: bool,
    cells: usize,
    faces: usize,
    volumes: &[u64],
    firsts: &[u64],
    seconds: &[u64],
    shares: &[u64],
    reaches: &[u64],
    masses: &[u64],
    fluxes: &[i64],
    outsides: &[u64],
    releases: &[u64],
    room: &mut [u64],
) -> Result<(), Refusal>
    requires step_lent { StepLent
        (mesh_of cells faces volumes.now firsts.now seconds.now shares.now reaches.now)
        masses.now
        (water_of fluxes.now outsides.now releases.now) }
    requires cells_in_bounds { cells ≤ length room.old }
    requires reaches_value { known ≡ true → mesh_values ceiling (mesh_of cells faces volumes.now firsts.now seconds.now shares.now reaches.now) ≡ fine }
    ensures { said result ≡ values_verdict
        (mesh_of cells faces volumes.now firsts.now seconds.now shares.now reaches.now)
        masses.now
        (water_of fluxes.now outsides.now releases.now) }
{
    if !quick::cells_fit(cells, volumes, masses, releases) {
        return step_values(
            cells, faces, volumes, firsts, seconds, shares, reaches, masses, fluxes, outsides,
            releases,
        );
    }
    if check_passing::pass(
        known, cells, faces, volumes, firsts, seconds, shares, reaches, fluxes, outsides, room,
    ) {
        return Ok(());
    }
    step_values(
        cells, faces, volumes, firsts, seconds, shares, reaches, masses, fluxes, outsides, releases,
    )
}

// The same in an array of its own, short for few cells: an array is cleared before it is filled.
fn values_own(
    cells: usize,
    faces: usize,
    volumes: &[u64],
    firsts: &[u64],
    seconds: &[u64],
    shares: &[u64],
    reaches: &[u64],
    masses: &[u64],
    fluxes: &[i64],
    outsides: &[u64],
    releases: &[u64],
) -> Result<(), Refusal>
    requires { StepLent
        (mesh_of cells faces volumes.now firsts.now seconds.now shares.now reaches.now)
        masses.now
        (water_of fluxes.now outsides.now releases.now) }
    ensures { said result ≡ values_verdict
        (mesh_of cells faces volumes.now firsts.now seconds.now shares.now reaches.now)
        masses.now
        (water_of fluxes.now outsides.now releases.now) }
{
    if cells <= FEW {
        let mut few = [0u64; FEW];
        return values_in(
            false, cells, faces, volumes, firsts, seconds, shares, reaches, masses, fluxes,
            outsides, releases, &mut few,
        );
    }
    let mut room = [0u64; model::MAX_CELLS];
    values_in(
        false, cells, faces, volumes, firsts, seconds, shares, reaches, masses, fluxes, outsides,
        releases, &mut room,
    )
}

// Causes 1 and 2.
fn tables_lent(
    cells: usize,
    faces: usize,
    volumes: &[u64],
    firsts: &[u64],
    seconds: &[u64],
    shares: &[u64],
    reaches: &[u64],
    masses: &[u64],
    fluxes: &[i64],
    outsides: &[u64],
    next: &[u64],
    moved: &[i64],
    work: &[u64],
    releases: &[u64],
) -> Result<(), Refusal>
    ensures { said result ≡ tables_lent
        (mesh_of cells faces volumes.now firsts.now seconds.now shares.now reaches.now)
        masses.now
        (call_of fluxes.now outsides.now next.now moved.now work.now releases.now) }
{
    check_lent::field_lent(
        cells, faces, volumes, firsts, seconds, shares, reaches, masses,
    )?;
    check_lent::step_lent(cells, faces, fluxes, outsides, next, moved, work, releases)
}

// Causes 1 to 10 and 18.
pub fn check_step(
    cells: usize,
    faces: usize,
    volumes: &[u64],
    firsts: &[u64],
    seconds: &[u64],
    shares: &[u64],
    reaches: &[u64],
    masses: &[u64],
    fluxes: &[i64],
    outsides: &[u64],
    next: &[u64],
    moved: &[i64],
    work: &[u64],
    releases: &[u64],
) -> Result<(), Refusal>
    ensures { said result ≡ verdict
        (mesh_of cells faces volumes.now firsts.now seconds.now shares.now reaches.now)
        masses.now
        (call_of fluxes.now outsides.now next.now moved.now work.now releases.now) }
{
    tables_lent(
        cells, faces, volumes, firsts, seconds, shares, reaches, masses, fluxes, outsides, next,
        moved, work, releases,
    )?;
    values_own(
        cells, faces, volumes, firsts, seconds, shares, reaches, masses, fluxes, outsides, releases,
    )
}

// The same, of a mesh whose values may be known to be accepted, with the table of next masses as room: what it holds afterwards is no matter.
pub fn check_step_in(
    known: bool,
    cells: usize,
    faces: usize,
    volumes: &[u64],
    firsts: &[u64],
    seconds: &[u64],
    shares: &[u64],
    reaches: &[u64],
    masses: &[u64],
    fluxes: &[i64],
    outsides: &[u64],
    next: &mut [u64],
    moved: &[i64],
    work: &[u64],
    releases: &[u64],
) -> Result<(), Refusal>
    requires { known ≡ true → mesh_values ceiling (mesh_of cells faces volumes.now firsts.now seconds.now shares.now reaches.now) ≡ fine }
    ensures { said result ≡ verdict
        (mesh_of cells faces volumes.now firsts.now seconds.now shares.now reaches.now)
        masses.now
        (call_of fluxes.now outsides.now next.old moved.now work.now releases.now) }
{
    tables_lent(
        cells, faces, volumes, firsts, seconds, shares, reaches, masses, fluxes, outsides, next,
        moved, work, releases,
    )?;
    values_in(
        known, cells, faces, volumes, firsts, seconds, shares, reaches, masses, fluxes, outsides,
        releases, next,
    )
}

// The same causes of a judging, which is lent a claim as moved, and no work.
pub fn check_claim(
    cells: usize,
    faces: usize,
    volumes: &[u64],
    firsts: &[u64],
    seconds: &[u64],
    shares: &[u64],
    reaches: &[u64],
    masses: &[u64],
    fluxes: &[i64],
    outsides: &[u64],
    next: &[u64],
    claim: &[i64],
    releases: &[u64],
) -> Result<(), Refusal>
    ensures { said result ≡ unworked_verdict
        (mesh_of cells faces volumes.now firsts.now seconds.now shares.now reaches.now)
        masses.now
        (claim_of fluxes.now outsides.now next.now claim.now releases.now) }
{
    check_lent::field_lent(
        cells, faces, volumes, firsts, seconds, shares, reaches, masses,
    )?;
    check_lent::claim_lent(cells, faces, fluxes, outsides, next, claim, releases)?;
    step_values(
        cells, faces, volumes, firsts, seconds, shares, reaches, masses, fluxes, outsides, releases,
    )
}
