// The boards of a field in records, for a host program in C.
#![tactic(auto)]

ghost use Rattle.host_answer.specs.Found.{Answered};
ghost use Rattle.host_field_promises.specs.Board.{shown_numbers};
ghost use Rattle.host_record_promises.specs.Boards.{board_found, public_board_found};

use host_board::answered;
use host_numbers::number_of;
use host_taking::take_cells;
use model::RUN_CELLS;

// The growers' board.
#[unsafe(no_mangle)]
pub extern "C" fn lagoon_board(mesh: &[u8], field: &[u8], found: &mut [u64]) -> u64
    ensures { Answered shown_numbers (board_found mesh.now field.now) found.old result found.new }
{
    let mut volumes = [0u64; RUN_CELLS];
    let mut masses = [0u64; RUN_CELLS];
    let a = take_cells(mesh, field, &mut volumes, &mut masses);
    match a {
        Err(refusal) => number_of(refusal),
        Ok(counts) => {
            let cells = counts.cells;
            let shown = board::board(cells, &volumes[..cells], &masses[..cells]);
            answered(shown, found)
        }
    }
}

// The public's board, with marks of the cells.
#[unsafe(no_mangle)]
pub extern "C" fn lagoon_public_board(
    mesh: &[u8],
    field: &[u8],
    marks: &[u64],
    found: &mut [u64],
) -> u64
    ensures { Answered shown_numbers (public_board_found mesh.now field.now marks.now)
        found.old result found.new }
{
    let mut volumes = [0u64; RUN_CELLS];
    let mut masses = [0u64; RUN_CELLS];
    let a = take_cells(mesh, field, &mut volumes, &mut masses);
    match a {
        Err(refusal) => number_of(refusal),
        Ok(counts) => {
            let cells = counts.cells;
            let shown = public_board::public_board(
                cells,
                &volumes[..cells],
                &masses[..cells],
                marks,
            );
            answered(shown, found)
        }
    }
}
