// Document 02's S-14: marks of cells, open or withheld.
#![tactic(auto)]

ghost use Rattle.std.specs.Prelude.{◌≡◌, get_or};
ghost use Rattle.model.specs.Answers.{said};
ghost use Rattle.public_marks.specs.Marks.{is_open, marks_long, marks_good};

use model::needs::long;
use model::{Cause, Refusal, positions};

// The marks of a cell that all may see, and of one that is withheld.
const OPEN: u64 = 0;

const WITHHELD: u64 = 1;

// The mark of a cell; a table that is too short has been refused before a mark decides anything.
fn mark_at(marks: &[u64], c: usize) -> u64
    ensures { result ≡ get_or marks.now c 0 }
{
    if c < marks.len() {
        return marks[c];
    }
    OPEN
}

pub fn is_open(marks: &[u64], c: usize) -> bool
    ensures { result ≡ is_open marks.now c }
{
    mark_at(marks, c) == OPEN
}

// Cause 2.
pub fn marks_long(cells: usize, marks: &[u64]) -> Result<(), Refusal>
    ensures { said result ≡ marks_long marks.now cells }
{
    long(positions::MARKS, cells, marks.len())
}

// Cause 27.
pub fn marks_good(cells: usize, marks: &[u64]) -> Result<(), Refusal>
    ensures { said result ≡ marks_good marks.now cells }
{
    for c in 0..cells {
        if mark_at(marks, c) > WITHHELD {
            return Err(Refusal {
                cause: Cause::Mark,
                place: c as u64,
            });
        }
    }
    Ok(())
}
