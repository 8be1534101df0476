// Whether no cell is refused by 3, 6 or 18: one reading of the cells serves all.
ghost use Rattle.std.specs.Prelude.{◌≡◌, true, ℕ, ◌≤◌, ◌<◌, length, get_or};
ghost use Rattle.checks.specs.Quick.{CellFine};

use model::needs::between;

// Causes 3, 6 and 18 of one cell. Mass and release may be any numbers, so they are not added.
fn cell_fits(volume: u64, mass: u64, release: u64) -> bool
    ensures { result ≡ true → CellFine volume mass release }
{
    if !between(1, model::CEILING, volume) {
        return false;
    }
    let end = (model::MAX_CONCENTRATION + 1) * volume;
    if end <= mass {
        return false;
    }
    if end - mass <= release {
        return false;
    }
    true
}

// The same of all cells.
pub fn cells_fit(cells: usize, volumes: &[u64], masses: &[u64], releases: &[u64]) -> bool
    requires { (cells ≤ length volumes.now) × (cells ≤ length masses.now) × (cells ≤ length releases.now) }
    ensures { result ≡ true → (c : ℕ) → c < cells → CellFine (get_or volumes.now c 0) (get_or masses.now c 0)
        (get_or releases.now c 0) }
{
    for c in 0..cells {
        if !cell_fits(volumes[c], masses[c], releases[c]) {
            return false;
        }
    }
    true
}
