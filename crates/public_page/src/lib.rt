// Document 02's S-14: a page of the binder for the public, without the lines of withheld cells and without the mass.
#![tactic(auto)]

ghost use Rattle.std.specs.Prelude.{◌≡◌};
ghost use Rattle.model.specs.Answers.{said};
ghost use Rattle.public_page.specs.Public.{public_page_verdict, PublicPageIs};

use model::Refusal;
use page::judge;
use page_lines::{PAGE_CELLS, cells_on, lines, rest_places};
use public_marks::{marks_good, marks_long};

// What printing a public page into so many bytes is refused for. The marks are read only where the cells are few and the table is long enough.
fn judge_public(
    cells: usize,
    volumes: &[u64],
    masses: &[u64],
    page: u64,
    room: usize,
    marks: &[u64],
) -> Result<(), Refusal>
    ensures { said result ≡ public_page_verdict volumes.now masses.now marks.now cells page room }
{
    let marked = marks_long(cells, marks);
    judge(cells, volumes, masses, page, room, marked)?;
    marks_good(cells, marks)
}

// A public page of a field: causes 1 (cells), 2 (volumes, masses, bytes, marks), 3, 6, 14 and 27, else its length, with the page in the first bytes.
pub fn public_page(
    cells: usize,
    volumes: &[u64],
    masses: &[u64],
    page: u64,
    bytes: &mut [u8],
    marks: &[u64],
) -> Result<u64, Refusal>
    ensures { PublicPageIs volumes.now masses.now marks.now cells page bytes.old result bytes.new }
{
    judge_public(cells, volumes, masses, page, bytes.len(), marks)?;
    let first = page as usize * PAGE_CELLS;
    let count = cells_on(cells, page as usize);
    let places = rest_places(cells, volumes);
    let length = lines(bytes, places, first, count, volumes, masses, marks);
    Ok(length as u64)
}
