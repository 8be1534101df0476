// Document 02's S-11: another model's step, told by the moved masses that it claims, is judged; where it is accepted, next masses are filled.
#![tactic(auto)]

ghost use Rattle.std.specs.Prelude.{◌≡◌, ◌≤◌, ◌+◌, ◌*◌, length};
ghost use Rattle.model.specs.Mesh.{mesh_of};
ghost use Rattle.model.specs.Claims.{claim_of};
ghost use Rattle.model.specs.Accepted.{Ready};
ghost use Rattle.step_carrying.specs.Carrying.{input_from, CarriedTo};
ghost use Rattle.transport.specs.Promise.{step_said};
ghost use Rattle.judging.specs.Promise.{JudgePromise, amounts_answer};

use model::{MAX_CELLS, MAX_FACES, Refusal};
use step_carrying::{Carried, carry};
use step_raising::concentrations;
use transport::Crossed;

// Entries of a table of work for the largest mesh.
const MAX_WORK: usize = 4 * MAX_CELLS + MAX_FACES;

// The first two passes of a step, on tables as long as the counts: what stage 1 says of each face, and each cell's bounds.
fn first_passes(
    cells: usize,
    faces: usize,
    volumes: &[u64],
    firsts: &[u64],
    seconds: &[u64],
    shares: &[u64],
    reaches: &[u64],
    masses: &[u64],
    fluxes: &[i64],
    outsides: &[u64],
    releases: &[u64],
    low: &mut [u64],
    carried: &mut [i64],
    work: &mut [u64],
) -> Carried
    requires ready { let S = input_from cells faces volumes.now firsts.now seconds.now shares.now reaches.now masses.now fluxes.now outsides.now
        releases.now in
        Ready S × (cells ≤ length masses.now) × (cells ≤ length releases.now) }
    requires lengths { (length low.old ≡ cells) × (length carried.old ≡ faces) × (length work.old ≡ 4 * cells + faces) }
    ensures { let S = input_from cells faces volumes.now firsts.now seconds.now shares.now reaches.now masses.now fluxes.now outsides.now
        releases.now in
        CarriedTo S faces result.entered result.gone low.new carried.new work.new }
{
    concentrations(cells, volumes, masses, releases, low, work);
    carry(
        cells, faces, firsts, seconds, shares, reaches, fluxes, outsides, low, carried, work,
    )
}

// Causes 21 and 22 of a claim that has passed those of a step, on such tables. What crossed the rim is what stage 1 says.
fn judged_in(
    cells: usize,
    faces: usize,
    volumes: &[u64],
    firsts: &[u64],
    seconds: &[u64],
    shares: &[u64],
    reaches: &[u64],
    masses: &[u64],
    fluxes: &[i64],
    outsides: &[u64],
    claim: &[i64],
    releases: &[u64],
    low: &mut [u64],
    carried: &mut [i64],
    work: &mut [u64],
) -> Result<Crossed, Refusal>
    requires ready { let S = input_from cells faces volumes.now firsts.now seconds.now shares.now reaches.now masses.now fluxes.now outsides.now
        releases.now in
        Ready S × (cells ≤ length masses.now) × (cells ≤ length releases.now) × (faces ≤ length claim.now) }
    requires lengths { (length low.old ≡ cells) × (length carried.old ≡ faces) × (length work.old ≡ 4 * cells + faces) }
    ensures { let S = input_from cells faces volumes.now firsts.now seconds.now shares.now reaches.now masses.now fluxes.now outsides.now
        releases.now in
        step_said result ≡ amounts_answer S claim.now releases.now }
{
    let crossed = first_passes(
        cells, faces, volumes, firsts, seconds, shares, reaches, masses, fluxes, outsides,
        releases, low, carried, work,
    );
    judging_claims::claims_good(faces, seconds, fluxes, carried, claim)?;
    judging_bounds::values(
        cells, faces, volumes, firsts, seconds, masses, claim, releases, work,
    )?;
    Ok(Crossed {
        entered: crossed.entered,
        gone: crossed.gone,
        released: checks::field::sum_of(cells, releases),
    })
}

// The same, with tables of its own: no lent table is written.
fn judged(
    cells: usize,
    faces: usize,
    volumes: &[u64],
    firsts: &[u64],
    seconds: &[u64],
    shares: &[u64],
    reaches: &[u64],
    masses: &[u64],
    fluxes: &[i64],
    outsides: &[u64],
    claim: &[i64],
    releases: &[u64],
) -> Result<Crossed, Refusal>
    requires { let S = input_from cells faces volumes.now firsts.now seconds.now shares.now reaches.now masses.now fluxes.now outsides.now
        releases.now in
        Ready S × (cells ≤ length masses.now) × (cells ≤ length releases.now) × (faces ≤ length claim.now) }
    ensures { let S = input_from cells faces volumes.now firsts.now seconds.now shares.now reaches.now masses.now fluxes.now outsides.now
        releases.now in
        step_said result ≡ amounts_answer S claim.now releases.now }
{
    let mut low = [0u64; MAX_CELLS];
    let mut carried = [0i64; MAX_FACES];
    let mut work = [0u64; MAX_WORK];
    judged_in(
        cells,
        faces,
        volumes,
        firsts,
        seconds,
        shares,
        reaches,
        masses,
        fluxes,
        outsides,
        claim,
        releases,
        &mut low[..cells],
        &mut carried[..faces],
        &mut work[..4 * cells + faces],
    )
}

// Another model's step judged, by the masses that it claims to have moved: all causes of a step, then 21 and 22.
pub fn judge(
    cells: usize,
    faces: usize,
    volumes: &[u64],
    firsts: &[u64],
    seconds: &[u64],
    shares: &[u64],
    reaches: &[u64],
    masses: &[u64],
    fluxes: &[i64],
    outsides: &[u64],
    next: &mut [u64],
    claim: &[i64],
    releases: &[u64],
) -> Result<Crossed, Refusal>
    ensures { JudgePromise
        (mesh_of cells faces volumes.now firsts.now seconds.now shares.now reaches.now)
        masses.now
        (claim_of fluxes.now outsides.now next.old claim.now releases.now)
        result next.new }
{
    checks::check_claim(
        cells, faces, volumes, firsts, seconds, shares, reaches, masses, fluxes, outsides, next,
        claim, releases,
    )?;
    let crossed = judged(
        cells, faces, volumes, firsts, seconds, shares, reaches, masses, fluxes, outsides, claim,
        releases,
    )?;
    judging_next::values(
        cells, faces, volumes, firsts, seconds, masses, claim, releases, next,
    );
    Ok(crossed)
}
