// Causes 3 to 5: the values of the mesh tables.
#![tactic(auto)]

ghost use Rattle.std.specs.Prelude.{◌≡◌, true, ◌≤◌, length, get_or};
ghost use Rattle.model.specs.Mesh.{mesh_of};
ghost use Rattle.model.specs.Accepted.{MeshLent};
ghost use Rattle.model.specs.Causes.{fine, ◌and_then◌, each, volume_fits, ends_fit, spacing_fit, mesh_values};
ghost use Rattle.model.specs.Answers.{said};

use model::needs::between;
use model::{Cause, Refusal};

// Cause 3.
fn volumes_good(cells: usize, volumes: &[u64], most: u64) -> Result<(), Refusal>
    requires { cells ≤ length volumes.now }
    ensures { said result ≡ each 3 cells (λ c. volume_fits most (get_or volumes.now c 0)) }
{
    for c in 0..cells {
        if !between(1, most, volumes[c]) {
            return Err(Refusal {
                cause: Cause::Volume,
                place: c as u64,
            });
        }
    }
    Ok(())
}

// One face's ends: the first a cell, the second a cell or the rim, and not the same.
fn ends_fit(cells: u64, first: u64, second: u64) -> bool
    ensures { result ≡ ends_fit cells first second }
{
    if cells <= first {
        return false;
    }
    if first == second {
        return false;
    }
    if second < cells {
        return true;
    }
    second == model::RIM
}

// Cause 4.
fn ends_good(cells: usize, faces: usize, firsts: &[u64], seconds: &[u64]) -> Result<(), Refusal>
    requires { (faces ≤ length firsts.now) × (faces ≤ length seconds.now) }
    ensures { said result ≡ each 4 faces (λ f. ends_fit cells (get_or firsts.now f 0) (get_or seconds.now f 0)) }
{
    for f in 0..faces {
        if !ends_fit(cells as u64, firsts[f], seconds[f]) {
            return Err(Refusal {
                cause: Cause::Ends,
                place: f as u64,
            });
        }
    }
    Ok(())
}

// One face's share and reach: both 0 at the rim, both in their ranges inside.
fn spacing_fits(second: u64, share: u64, reach: u64, most: u64) -> bool
    ensures { result ≡ spacing_fit most second share reach }
{
    if second == model::RIM {
        if share == 0 {
            return reach == 0;
        }
        return false;
    }
    if between(1, model::MAX_SHARE, share) {
        return between(1, most, reach);
    }
    false
}

// Cause 5.
fn spacing_good(
    faces: usize,
    seconds: &[u64],
    shares: &[u64],
    reaches: &[u64],
    most: u64,
) -> Result<(), Refusal>
    requires { (faces ≤ length seconds.now) × (faces ≤ length shares.now) × (faces ≤ length reaches.now) }
    ensures { said result ≡ each 5 faces
        (λ f. spacing_fit most (get_or seconds.now f 0) (get_or shares.now f 0) (get_or reaches.now f 0)) }
{
    for f in 0..faces {
        if !spacing_fits(seconds[f], shares[f], reaches[f], most) {
            return Err(Refusal {
                cause: Cause::Spacing,
                place: f as u64,
            });
        }
    }
    Ok(())
}

// Whether no face is refused by 4 or 5: one reading of the faces serves both.
fn faces_fit(
    cells: usize,
    faces: usize,
    firsts: &[u64],
    seconds: &[u64],
    shares: &[u64],
    reaches: &[u64],
    most: u64,
) -> bool
    requires { (faces ≤ length firsts.now) × (faces ≤ length seconds.now) × (faces ≤ length shares.now) × (faces ≤ length reaches.now) }
    ensures { result ≡ true
        → (each 4 faces (λ f. ends_fit cells (get_or firsts.now f 0) (get_or seconds.now f 0)) ≡ fine)
        × (each 5 faces (λ f. spacing_fit most (get_or seconds.now f 0) (get_or shares.now f 0) (get_or reaches.now f 0)) ≡ fine) }
{
    for f in 0..faces {
        let second = seconds[f];
        if !ends_fit(cells as u64, firsts[f], second) {
            return false;
        }
        if !spacing_fits(second, shares[f], reaches[f], most) {
            return false;
        }
    }
    true
}

// Causes 4 and 5 in their order.
fn faces_good(
    cells: usize,
    faces: usize,
    firsts: &[u64],
    seconds: &[u64],
    shares: &[u64],
    reaches: &[u64],
    most: u64,
) -> Result<(), Refusal>
    requires { (faces ≤ length firsts.now) × (faces ≤ length seconds.now) × (faces ≤ length shares.now) × (faces ≤ length reaches.now) }
    ensures { said result ≡ (
        each 4 faces (λ f. ends_fit cells (get_or firsts.now f 0) (get_or seconds.now f 0))
        and_then each 5 faces (λ f. spacing_fit most (get_or seconds.now f 0) (get_or shares.now f 0) (get_or reaches.now f 0))
        ) }
{
    if faces_fit(cells, faces, firsts, seconds, shares, reaches, most) {
        return Ok(());
    }
    ends_good(cells, faces, firsts, seconds)?;
    spacing_good(faces, seconds, shares, reaches, most)
}

// Causes 3 to 5 in their order, with a ceiling that the caller sets: the writers of old kinds of records have a lower one than the calls.
pub fn values(
    cells: usize,
    faces: usize,
    volumes: &[u64],
    firsts: &[u64],
    seconds: &[u64],
    shares: &[u64],
    reaches: &[u64],
    most: u64,
) -> Result<(), Refusal>
    requires { MeshLent (mesh_of cells faces volumes.now firsts.now seconds.now shares.now reaches.now) }
    ensures { said result ≡ mesh_values most
        (mesh_of cells faces volumes.now firsts.now seconds.now shares.now reaches.now) }
{
    volumes_good(cells, volumes, most)?;
    faces_good(cells, faces, firsts, seconds, shares, reaches, most)
}
