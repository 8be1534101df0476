// The calls of host_record_board.
ghost use Rattle.host_answer.specs.Found.{Answered};
ghost use Rattle.host_field_promises.specs.Board.{shown_numbers};
ghost use Rattle.host_record_promises.specs.Boards.{board_found, public_board_found};

// The growers' board.
#[unsafe(no_mangle)]
pub extern "C" fn lagoon_board(mesh: &[u8], field: &[u8], found: &mut [u64]) -> u64
    ensures { Answered shown_numbers (board_found mesh.now field.now) found.old result found.new }
{
    host_record_board::lagoon_board(mesh, field, found)
}

// The public's board, with marks of the cells.
#[unsafe(no_mangle)]
pub extern "C" fn lagoon_public_board(
    mesh: &[u8],
    field: &[u8],
    marks: &[u64],
    found: &mut [u64],
) -> u64
    ensures { Answered shown_numbers (public_board_found mesh.now field.now marks.now)
        found.old result found.new }
{
    host_record_board::lagoon_public_board(mesh, field, marks, found)
}
