// Causes 7 and 8: the outside values and the fluxes.
#![tactic(auto)]

ghost use Rattle.std.specs.Prelude.{◌≡◌, true, cond, ◌&&◌, ◌≤◌, eqb, pos, length, get_or};
ghost use Rattle.signed.specs.Sign.{is_negative, size as size_of};
ghost use Rattle.model.specs.Mesh.{rim, max_concentration};
ghost use Rattle.model.specs.Causes.{◌and_then◌, fine, each, outside_fit, flux_fit};
ghost use Rattle.model.specs.Answers.{said};

use model::{Cause, Refusal};
use signed::{is_negative_at, size_at};

// The largest outside value of one face: 0 elsewhere than at an inflow through the rim.
fn most_outside(second: u64, inward: bool) -> u64
    ensures { result ≡ cond (eqb second rim && inward) max_concentration 0 }
{
    if second != model::RIM {
        return 0;
    }
    if inward {
        return model::MAX_CONCENTRATION;
    }
    0
}

// One face's outside value.
fn outside_fits(second: u64, inward: bool, outside: u64) -> bool
    ensures { result ≡ outside_fit second inward outside }
{
    outside <= most_outside(second, inward)
}

// Cause 7.
fn outsides_good(
    faces: usize,
    seconds: &[u64],
    fluxes: &[i64],
    outsides: &[u64],
) -> Result<(), Refusal>
    requires { (faces ≤ length seconds.now) × (faces ≤ length fluxes.now) × (faces ≤ length outsides.now) }
    ensures { said result ≡ each 7 faces
        (λ f. outside_fit (get_or seconds.now f 0) (is_negative (get_or fluxes.now f (pos 0))) (get_or outsides.now f 0)) }
{
    for f in 0..faces {
        if !outside_fits(seconds[f], is_negative_at(fluxes, f), outsides[f]) {
            return Err(Refusal {
                cause: Cause::Outside,
                place: f as u64,
            });
        }
    }
    Ok(())
}

// The largest size of one face's flux.
fn most_flux(second: u64, reach: u64, most: u64) -> u64
    ensures { result ≡ cond (eqb second rim) most reach }
{
    if second == model::RIM {
        return most;
    }
    reach
}

// One face's flux.
fn flux_fits(second: u64, reach: u64, amount: u64, most: u64) -> bool
    ensures { result ≡ flux_fit most second reach amount }
{
    amount <= most_flux(second, reach, most)
}

// Cause 8.
fn fluxes_good(
    faces: usize,
    seconds: &[u64],
    reaches: &[u64],
    fluxes: &[i64],
    most: u64,
) -> Result<(), Refusal>
    requires { (faces ≤ length seconds.now) × (faces ≤ length reaches.now) × (faces ≤ length fluxes.now) }
    ensures { said result ≡ each 8 faces
        (λ f. flux_fit most (get_or seconds.now f 0) (get_or reaches.now f 0) (size_of (get_or fluxes.now f (pos 0)))) }
{
    for f in 0..faces {
        if !flux_fits(seconds[f], reaches[f], size_at(fluxes, f), most) {
            return Err(Refusal {
                cause: Cause::Flux,
                place: f as u64,
            });
        }
    }
    Ok(())
}

// Whether no face is refused by 7 or 8: one reading of the faces serves both.
fn faces_fit(
    faces: usize,
    seconds: &[u64],
    reaches: &[u64],
    fluxes: &[i64],
    outsides: &[u64],
    most: u64,
) -> bool
    requires { (faces ≤ length seconds.now) × (faces ≤ length reaches.now) × (faces ≤ length fluxes.now) × (faces ≤ length outsides.now) }
    ensures { result ≡ true
        → (each 7 faces (λ f. outside_fit (get_or seconds.now f 0) (is_negative (get_or fluxes.now f (pos 0)))
        (get_or outsides.now f 0)) ≡ fine)
        × (each 8 faces (λ f. flux_fit most (get_or seconds.now f 0) (get_or reaches.now f 0)
        (size_of (get_or fluxes.now f (pos 0)))) ≡ fine) }
{
    for f in 0..faces {
        let second = seconds[f];
        if !outside_fits(second, is_negative_at(fluxes, f), outsides[f]) {
            return false;
        }
        if !flux_fits(second, reaches[f], size_at(fluxes, f), most) {
            return false;
        }
    }
    true
}

// Causes 7 and 8 in their order, the second with a ceiling that the caller sets.
pub fn values(
    faces: usize,
    seconds: &[u64],
    reaches: &[u64],
    fluxes: &[i64],
    outsides: &[u64],
    most: u64,
) -> Result<(), Refusal>
    requires { (faces ≤ length seconds.now)
        × (faces ≤ length reaches.now)
        × (faces ≤ length fluxes.now)
        × (faces ≤ length outsides.now) }
    ensures { said result ≡ (
        each 7 faces (λ f. outside_fit (get_or seconds.now f 0) (is_negative (get_or fluxes.now f (pos 0))) (get_or outsides.now f 0))
        and_then each 8 faces (λ f. flux_fit most (get_or seconds.now f 0) (get_or reaches.now f 0)
        (size_of (get_or fluxes.now f (pos 0))))
        ) }
{
    if faces_fit(faces, seconds, reaches, fluxes, outsides, most) {
        return Ok(());
    }
    outsides_good(faces, seconds, fluxes, outsides)?;
    fluxes_good(faces, seconds, reaches, fluxes, most)
}
