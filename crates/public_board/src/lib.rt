// Document 02's S-14: the board for the public, of open cells only.
#![tactic(auto)]

ghost use Rattle.std.specs.Prelude.{◌≡◌};
ghost use Rattle.model.specs.Answers.{said};
ghost use Rattle.public_board.specs.Public.{public_board_verdict, PublicBoardIs};

use board::{BoardAnswer, board_after};
use checks::check_cells;
use model::Refusal;
use public_marks::{marks_good, marks_long};

// What the public board is refused for.
fn judge(cells: usize, volumes: &[u64], masses: &[u64], marks: &[u64]) -> Result<(), Refusal>
    ensures { said result ≡ public_board_verdict volumes.now masses.now marks.now cells }
{
    let none = &volumes[..0];
    check_lent::field_lent(cells, 0, volumes, none, none, none, none, masses)?;
    marks_long(cells, marks)?;
    check_cells(cells, volumes, masses)?;
    marks_good(cells, marks)
}

// The public board of a field: causes 1 (cells), 2 (volumes, masses, marks), 3, 6 and 27, else the highest open cells.
pub fn public_board(cells: usize, volumes: &[u64], masses: &[u64], marks: &[u64]) -> BoardAnswer
    ensures { PublicBoardIs volumes.now masses.now marks.now cells result }
{
    let verdict = judge(cells, volumes, masses, marks);
    board_after(verdict, cells, volumes, masses, marks)
}
