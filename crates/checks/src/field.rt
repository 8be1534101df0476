// Cause 6, and the sum of the masses.
ghost use Rattle.std.specs.Prelude.{◌≡◌, ℕ, ◌≤◌, ◌<◌, ◌^◌, length, get_or};
ghost use Rattle.lists.specs.Fold.{sum};
ghost use Rattle.model.specs.Mesh.{max_volume};
ghost use Rattle.model.specs.Causes.{each, salt_fit};
ghost use Rattle.model.specs.Answers.{said};
ghost use Rattle.model.specs.Calls.{mass_in};

use model::{Cause, Refusal};

// One cell's concentration within the ceiling, without a division.
fn salt_fits(volume: u64, mass: u64) -> bool
    requires { (1 ≤ volume) × (volume ≤ max_volume) }
    ensures { result ≡ salt_fit volume mass }
{
    mass < (model::MAX_CONCENTRATION + 1) * volume
}

// Cause 6, of volumes within their range.
pub fn values(cells: usize, volumes: &[u64], masses: &[u64]) -> Result<(), Refusal>
    requires cells_in_bounds { (cells ≤ length volumes.now) × (cells ≤ length masses.now) }
    requires by_index { (c : ℕ) → c < cells
        → (1 ≤ get_or volumes.now c 0)
        × (get_or volumes.now c 0 ≤ max_volume) }
    ensures { said result ≡ each 6 cells (λ c. salt_fit (get_or volumes.now c 0) (get_or masses.now c 0)) }
{
    for c in 0..cells {
        if !salt_fits(volumes[c], masses[c]) {
            return Err(Refusal {
                cause: Cause::Concentration,
                place: c as u64,
            });
        }
    }
    Ok(())
}

// The sum of the masses, where it fits.
pub fn sum_of(cells: usize, masses: &[u64]) -> u64
    requires { (cells ≤ length masses.now) × (sum cells (mass_in masses.now) < 2 ^ 64) }
    ensures { result ≡ sum cells (mass_in masses.now) }
{
    masses[..cells].iter().sum()
}
