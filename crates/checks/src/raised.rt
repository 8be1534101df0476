// Cause 18 of document 02's S-6: a field raised by releases.
ghost use Rattle.std.specs.Prelude.{◌≡◌, ℕ, ◌≤◌, ◌<◌, length, get_or};
ghost use Rattle.model.specs.Mesh.{max_volume};
ghost use Rattle.model.specs.Causes.{each, raised_fit};
ghost use Rattle.model.specs.Answers.{said};

use model::{Cause, Refusal};

// One cell's raised concentration within the ceiling. Mass and release may be any numbers, so they are not added.
fn raised_fits(volume: u64, mass: u64, release: u64) -> bool
    requires { (1 ≤ volume) × (volume ≤ max_volume) }
    ensures { result ≡ raised_fit volume mass release }
{
    let end = (model::MAX_CONCENTRATION + 1) * volume;
    if mass < end {
        return release < end - mass;
    }
    false
}

// Cause 18, of volumes within their range.
pub fn values(
    cells: usize,
    volumes: &[u64],
    masses: &[u64],
    releases: &[u64],
) -> Result<(), Refusal>
    requires cells_in_bounds { (cells ≤ length volumes.now) × (cells ≤ length masses.now) × (cells ≤ length releases.now) }
    requires by_index { (c : ℕ) → c < cells
        → (1 ≤ get_or volumes.now c 0)
        × (get_or volumes.now c 0 ≤ max_volume) }
    ensures { said result ≡ each 18 cells
        (λ c. raised_fit (get_or volumes.now c 0) (get_or masses.now c 0) (get_or releases.now c 0)) }
{
    for c in 0..cells {
        if !raised_fits(volumes[c], masses[c], releases[c]) {
            return Err(Refusal {
                cause: Cause::Release,
                place: c as u64,
            });
        }
    }
    Ok(())
}
