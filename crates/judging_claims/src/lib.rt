// Document 02's S-11: cause 21 of moved masses that another model claims.
#![tactic(auto)]

ghost use Rattle.std.specs.Prelude.{◌≡◌, ◌≤◌, ◌<◌, length};
ghost use Rattle.model.specs.Causes.{each};
ghost use Rattle.model.specs.Answers.{said};
ghost use Rattle.judging_claims.specs.Tests.{still_fit, rim_fit, claim_parts, claim_at};

use model::{Cause, RIM, Refusal};
use signed::{is_negative_at, size_at};

// Largest size of a claimed mass.
pub const MAX_CLAIM: u64 = 1099511627776;

// A still face moves nothing.
fn still_fits(flux: u64, size: u64) -> bool
    ensures { result ≡ still_fit flux size }
{
    if flux == 0 {
        return size == 0;
    }
    true
}

// A rim face moves what stage 1 says: as much, and the same way.
fn rim_fits(second: u64, carried_back: bool, carried: u64, back: bool, size: u64) -> bool
    ensures { result ≡ rim_fit second carried_back carried back size }
{
    if second != RIM {
        return true;
    }
    if size != carried {
        return false;
    }
    if back { carried_back } else { !carried_back }
}

// One face's claim, by its size and whether it runs back; it is not too large either.
fn claim_fits(
    second: u64,
    flux: u64,
    carried_back: bool,
    carried: u64,
    back: bool,
    size: u64,
) -> bool
    ensures { result ≡ claim_parts second flux carried_back carried back size }
{
    if size > MAX_CLAIM {
        return false;
    }
    if still_fits(flux, size) {
        return rim_fits(second, carried_back, carried, back, size);
    }
    false
}

// The same of a face of tables.
fn face_fits(f: usize, seconds: &[u64], fluxes: &[i64], carried: &[i64], claim: &[i64]) -> bool
    requires { (f < length seconds.now) × (f < length fluxes.now) × (f < length carried.now) × (f < length claim.now) }
    ensures { result ≡ claim_at seconds.now fluxes.now carried.now claim.now f }
{
    let flux = size_at(fluxes, f);
    let carried_back = is_negative_at(carried, f);
    let said = size_at(carried, f);
    let back = is_negative_at(claim, f);
    let size = size_at(claim, f);
    claim_fits(seconds[f], flux, carried_back, said, back, size)
}

// Cause 21.
pub fn claims_good(
    faces: usize,
    seconds: &[u64],
    fluxes: &[i64],
    carried: &[i64],
    claim: &[i64],
) -> Result<(), Refusal>
    requires { (faces ≤ length seconds.now) × (faces ≤ length fluxes.now) × (faces ≤ length carried.now) × (faces ≤ length claim.now) }
    ensures { said result ≡ each 21 faces (claim_at seconds.now fluxes.now carried.now claim.now) }
{
    for f in 0..faces {
        if !face_fits(f, seconds, fluxes, carried, claim) {
            return Err(Refusal {
                cause: Cause::Moved,
                place: f as u64,
            });
        }
    }
    Ok(())
}
