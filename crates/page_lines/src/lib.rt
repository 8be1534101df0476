// Document 02's S-1: the lines of a page's cells, sixty cells to a page. S-14: those of open cells alone.
#![tactic(auto)]

ghost use Rattle.std.specs.Prelude.{◌≡◌, true, false, ℕ, ◌+◌, ◌*◌, ◌≤◌, ◌<◌, ◌/◌, ◌-◌, max, length, get_or};
ghost use Rattle.text.specs.Digits.{most_digits};
ghost use Rattle.text.specs.Lines.{Puts, pieces};
ghost use Rattle.public_marks.specs.Marks.{is_open};
ghost use Rattle.page_lines.specs.Lines.{page_cells, largest as largest_of, rest_places, mass_places, cell_line, line_if, cells_on};

use lists::least;
use public_marks::is_open;
use text::{NEWLINE, SPACE, column};

// Cells of a full page.
pub const PAGE_CELLS: usize = 60;

// Places of the cell, of q and of the rest on a line.
pub const CELL_PLACES: usize = 4;

pub const Q_PLACES: usize = 7;

pub const NARROW_PLACES: usize = 4;

// Of the rest where some volume is above the old ceiling.
pub const WIDE_PLACES: usize = 5;

fn larger(a: u64, b: u64) -> u64
    ensures { result ≡ max a b }
{
    if a < b { b } else { a }
}

// The largest volume of the whole mesh.
fn largest(cells: usize, volumes: &[u64]) -> u64
    requires { cells ≤ length volumes.now }
    ensures { result ≡ largest_of cells volumes.now }
{
    let mut most = 0;
    for volume in &volumes[..cells] {
        most = larger(most, *volume);
    }
    most
}

// Places of the rest, by the largest volume: cause 3 has not judged it yet.
pub fn rest_places(cells: usize, volumes: &[u64]) -> usize
    requires { cells ≤ length volumes.now }
    ensures { (result ≡ rest_places cells volumes.now) × (mass_places result ≤ most_digits) }
{
    if largest(cells, volumes) <= model::OLD_CEILING {
        return NARROW_PLACES;
    }
    WIDE_PLACES
}

// Places of the mass: all of a line but the newline.
pub fn mass_places(places: usize) -> usize
    requires { mass_places places ≤ most_digits }
    ensures { result ≡ mass_places places }
{
    CELL_PLACES + 1 + Q_PLACES + 1 + places
}

// The cells of a page that there is.
pub fn cells_on(cells: usize, page: usize) -> usize
    requires { page * page_cells ≤ cells }
    ensures { result ≡ cells_on cells page }
{
    least(PAGE_CELLS, cells - page * PAGE_CELLS)
}

// The line of a cell.
fn cell_line(lent: &mut [u8], at: usize, places: usize, cell: u64, volume: u64, mass: u64) -> usize
    requires { (1 ≤ volume) × (places ≤ most_digits) }
    ensures { Puts lent.old at (cell_line places cell (mass / volume) (mass - mass / volume * volume)) result lent.new }
{
    let q = mass / volume;
    let rest = mass - q * volume;
    let a = column(lent, at, CELL_PLACES, cell, SPACE);
    let b = column(lent, a, Q_PLACES, q, SPACE);
    column(lent, b, places, rest, NEWLINE)
}

// The line of a cell that is visible; of another, nothing.
fn line_if(
    visible: bool,
    lent: &mut [u8],
    at: usize,
    places: usize,
    cell: u64,
    volume: u64,
    mass: u64,
) -> usize
    requires { (1 ≤ volume) × (places ≤ most_digits) }
    ensures { (visible ≡ true → Puts lent.old at (cell_line places cell (mass / volume) (mass - mass / volume * volume)) result lent.new)
        × (visible ≡ false → (result ≡ at) × (lent.new ≡ lent.old)) }
{
    if visible {
        return cell_line(lent, at, places, cell, volume, mass);
    }
    at
}

// The lines of the open ones of so many cells, from the first of a page on.
pub fn lines(
    lent: &mut [u8],
    places: usize,
    first: usize,
    count: usize,
    volumes: &[u64],
    masses: &[u64],
    marks: &[u64],
) -> usize
    requires places_le_most_digits { (places ≤ most_digits) × (first + count ≤ length volumes.now) × (first + count ≤ length masses.now) }
    requires by_index { (c : ℕ) → c < first + count → 1 ≤ get_or volumes.now c 0 }
    ensures { Puts lent.old 0
        (pieces count (λ i. line_if volumes.now masses.now (is_open marks.now) places (first + i))) result lent.new }
{
    let mut at = 0;
    for i in 0..count {
        let c = first + i;
        at = line_if(
            is_open(marks, c),
            lent,
            at,
            places,
            c as u64,
            volumes[c],
            masses[c],
        );
    }
    at
}
