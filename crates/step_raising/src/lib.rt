// Document 02, S-6, before stage 1 of document 01: the raised field, and the concentration of each of its cells.
#![tactic(auto)]

ghost use Rattle.std.specs.Prelude.{◌≡◌, ℕ, ◌≤◌, ◌<◌, ◌+◌, ◌*◌, ◌/◌, ◌^◌, length, get_or, set};
ghost use Rattle.model.specs.Mesh.{max_cells};
ghost use Rattle.model.specs.Step.{raised};
ghost use Rattle.step_cell.specs.Work.{cell_filled};
ghost use Rattle.step_raising.specs.Raising.{Concentrations};

use step_cell::fill;

// What a cell holds before all stages: its mass and what is released into it.
fn raised_mass(mass: u64, release: u64) -> u64
    requires { mass + release < 2 ^ 64 }
    ensures { result ≡ mass + release }
{
    mass + release
}

// One cell of the first pass: its raised mass, whose rest stays in it, and its concentration, which is its least and greatest
// before it has met others.
fn start_cell(c: usize, mass: u64, volume: u64, next: &mut [u64], work: &mut [u64])
    requires { (1 ≤ volume) × (c < length next.old) × (4 * c + 3 < length work.old) × (c < max_cells) }
    ensures next_after { next.new ≡ set next.old c mass }
    ensures work_after { work.new ≡ cell_filled work.old c (mass / volume) (mass / volume) (mass / volume) 0 }
{
    next[c] = mass;
    let q = mass / volume;
    fill(work, c, q, q, q, 0);
}

// First pass: each cell's mass raised by its release, and the concentration of that; next masses start as the raised ones.
pub fn concentrations(
    cells: usize,
    volumes: &[u64],
    masses: &[u64],
    releases: &[u64],
    next: &mut [u64],
    work: &mut [u64],
)
    requires cells_le_max_cells { (cells ≤ max_cells) × (cells ≤ length volumes.now) × (cells ≤ length masses.now) × (cells ≤ length releases.now) }
    requires cells_in_bounds { (cells ≤ length next.old) × (4 * cells ≤ length work.old) }
    requires by_index { (c : ℕ) → c < cells → (1 ≤ get_or volumes.now c 0) × (get_or masses.now c 0 + get_or releases.now c 0 < 2 ^ 64) }
    ensures { Concentrations volumes.now (raised cells masses.now releases.now) work.old cells
        next.new work.new }
{
    for c in 0..cells {
        let mass = raised_mass(masses[c], releases[c]);
        start_cell(c, mass, volumes[c], next, work);
    }
}
