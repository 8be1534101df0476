// Numbers and concentrations of cells, for the faces of one part; and the labels' test.
ghost use Rattle.std.specs.Prelude.{◌≡◌, cond, ℕ, ◌+◌, ◌/◌, ◌^◌, ◌≤◌, ◌<◌, leb, length, get_or, set};
ghost use Rattle.lists.specs.Table.{table, over};
ghost use Rattle.lists.specs.Marked.{count};
ghost use Rattle.model.specs.Mesh.{rim};
ghost use Rattle.model.specs.Causes.{each};
ghost use Rattle.model.specs.Answers.{said};
ghost use Rattle.cutting_pieces.specs.Pieces.{has_label};

use crate::is_in;
use model::{Cause, RIM, Refusal};

// Cause 23.
pub fn labels_good(cells: usize, labels: &[u64]) -> Result<(), Refusal>
    requires { cells ≤ length labels.now }
    ensures { said result ≡ each 23 cells (λ c. leb (get_or labels.now c 0) 1) }
{
    for c in 0..cells {
        if 1 < labels[c] {
            return Err(Refusal {
                cause: Cause::Label,
                place: c as u64,
            });
        }
    }
    Ok(())
}

// One more, or not.
fn one_more(marked: bool, n: usize) -> usize
    requires { n + 1 < 2 ^ 64 }
    ensures { result ≡ n + cond marked 1 0 }
{
    if marked {
        return n + 1;
    }
    n
}

// How many cells the part has.
pub fn count_cells(cells: usize, part: u64, labels: &[u64]) -> usize
    requires { cells ≤ length labels.now }
    ensures { result ≡ count cells (has_label labels.now part) }
{
    let mut n = 0;
    for c in 0..cells {
        n = one_more(is_in(part, labels, c as u64), n);
    }
    n
}

// The number of each cell: how many of the part come before it. The rim's mark is its own number.
pub fn numbers(cells: usize, part: u64, labels: &[u64], out: &mut [u64])
    requires { (cells ≤ length labels.now) × (cells ≤ length out.old) × (rim < length out.old) }
    ensures { out.new ≡ set (over (table cells (λ c. count c (has_label labels.now part))) out.old) rim rim }
{
    let mut n = 0;
    for c in 0..cells {
        out[c] = n as u64;
        n = one_more(is_in(part, labels, c as u64), n);
    }
    out[RIM as usize] = RIM;
}

// The concentration of one cell with its release.
fn raised_concentration(volume: u64, mass: u64, release: u64) -> u64
    requires { (1 ≤ volume) × (mass + release < 2 ^ 64) }
    ensures { result ≡ (mass + release) / volume }
{
    (mass + release) / volume
}

// The raised concentrations.
pub fn concentrations(
    cells: usize,
    volumes: &[u64],
    masses: &[u64],
    releases: &[u64],
    out: &mut [u64],
)
    requires cells_in_bounds { (cells ≤ length volumes.now) × (cells ≤ length masses.now) × (cells ≤ length releases.now) × (cells ≤ length out.old) }
    requires by_index { (c : ℕ) → c < cells → (1 ≤ get_or volumes.now c 0) × (get_or masses.now c 0 + get_or releases.now c 0 < 2 ^ 64) }
    ensures { out.new
        ≡ over (table cells (λ c. (get_or masses.now c 0 + get_or releases.now c 0) / get_or volumes.now c 0)) out.old }
{
    for c in 0..cells {
        out[c] = raised_concentration(volumes[c], masses[c], releases[c]);
    }
}
