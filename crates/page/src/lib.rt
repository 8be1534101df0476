// Document 02's S-1: a page of the binder, sixty cells to a page, printed into lent bytes.
#![tactic(auto)]

ghost use Rattle.std.specs.Prelude.{◌≡◌, ℕ, ◌*◌, ◌≤◌, ◌<◌, ◌^◌, length, get_or};
ghost use Rattle.lists.specs.Fold.{sum};
ghost use Rattle.model.specs.Mesh.{max_cells};
ghost use Rattle.model.specs.Answers.{said};
ghost use Rattle.model.specs.Calls.{mass_in};
ghost use Rattle.text.specs.Digits.{most_digits};
ghost use Rattle.text.specs.Lines.{Puts};
ghost use Rattle.page.specs.Page.{page_cells, mass_places, page_text, pages as pages_of, page_bytes};
ghost use Rattle.page.specs.Answers.{verdict_with, PageIs};

use checks::check_cells;
use checks::field::sum_of;
use model::needs::{long, need};
use model::{Cause, Refusal, positions};
use page_lines::{PAGE_CELLS, cells_on, lines, mass_places, rest_places};
use text::{NEWLINE, column};

fn pages(cells: usize) -> usize
    requires { cells ≤ max_cells }
    ensures { result ≡ pages_of cells }
{
    (cells + (PAGE_CELLS - 1)) / PAGE_CELLS
}

// The bytes that a page needs, of any page number.
fn page_bytes(places: usize, cells: usize, page: u64) -> usize
    requires { (mass_places places ≤ most_digits) × (cells ≤ max_cells) }
    ensures { result ≡ page_bytes places cells page }
{
    if page < pages(cells) as u64 {
        return (cells_on(cells, page as usize) + 1) * (mass_places(places) + 1);
    }
    0
}

// A page that there is: the lines of all its cells, which no marks withhold, and its mass.
fn put(
    lent: &mut [u8],
    places: usize,
    cells: usize,
    volumes: &[u64],
    masses: &[u64],
    page: usize,
) -> usize
    requires places_bound { (mass_places places ≤ most_digits) × (page * page_cells ≤ cells) × (cells ≤ length volumes.now) × (cells ≤ length masses.now) }
    requires by_index { (c : ℕ) → c < cells → 1 ≤ get_or volumes.now c 0 }
    requires masses_bound { sum cells (mass_in masses.now) < 2 ^ 64 }
    ensures { Puts lent.old 0 (page_text volumes.now masses.now places cells page) result lent.new }
{
    let first = page * PAGE_CELLS;
    let count = cells_on(cells, page);
    let at = lines(lent, places, first, count, volumes, masses, &volumes[..0]);
    let mass = sum_of(count, &masses[first..]);
    column(lent, at, mass_places(places), mass, NEWLINE)
}

// What printing a page into so many bytes is refused for, with what a further table lent after the bytes is refused for.
pub fn judge(
    cells: usize,
    volumes: &[u64],
    masses: &[u64],
    page: u64,
    room: usize,
    further: Result<(), Refusal>,
) -> Result<(), Refusal>
    ensures { said result ≡ verdict_with (said further) volumes.now masses.now cells page room }
{
    let none = &volumes[..0];
    check_lent::field_lent(cells, 0, volumes, none, none, none, none, masses)?;
    let places = rest_places(cells, volumes);
    long(positions::PAGE, page_bytes(places, cells, page), room)?;
    further?;
    check_cells(cells, volumes, masses)?;
    need(Cause::Page, page, page < pages(cells) as u64)
}

// A page of a field for the growers: causes 1 (cells), 2 (volumes, masses, bytes), 3, 6 and 14, else its length, with the page in the first bytes.
pub fn page(
    cells: usize,
    volumes: &[u64],
    masses: &[u64],
    page: u64,
    bytes: &mut [u8],
) -> Result<u64, Refusal>
    ensures { PageIs volumes.now masses.now cells page bytes.old result bytes.new }
{
    judge(cells, volumes, masses, page, bytes.len(), Ok(()))?;
    let places = rest_places(cells, volumes);
    let length = put(bytes, places, cells, volumes, masses, page as usize);
    Ok(length as u64)
}
