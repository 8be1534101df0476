// The calls of host_board.
ghost use Rattle.host_field_promises.specs.Board.{BoardFromC, PublicBoardFromC};

// The growers' board of a field.
#[unsafe(no_mangle)]
pub extern "C" fn lagoon_table_board(
    cells: usize,
    volumes: &[u64],
    masses: &[u64],
    found: &mut [u64],
) -> u64
    ensures { BoardFromC cells volumes.now masses.now found.old result found.new }
{
    host_board::lagoon_table_board(cells, volumes, masses, found)
}

// Document 02's S-14: the board for the public.
#[unsafe(no_mangle)]
pub extern "C" fn lagoon_table_public_board(
    cells: usize,
    volumes: &[u64],
    masses: &[u64],
    marks: &[u64],
    found: &mut [u64],
) -> u64
    ensures { PublicBoardFromC cells volumes.now masses.now marks.now found.old result found.new }
{
    host_board::lagoon_table_public_board(cells, volumes, masses, marks, found)
}
