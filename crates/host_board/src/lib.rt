// The boards, for a host program in C.
#![tactic(auto)]

ghost use Rattle.std.specs.Prelude.{◌≡◌, ◌∷◌, ◌+◌, ◌<◌, ◌^◌, set};
ghost use Rattle.board.specs.Board.{board_size};
ghost use Rattle.host_answer.specs.Number.{number_of};
ghost use Rattle.host_answer.specs.Found.{filled, Answered};
ghost use Rattle.host_field_promises.specs.Board.{entry_numbers, entries_put, shown_numbers, board_said, BoardFromC, PublicBoardFromC};

use board::{BOARD_SIZE, BoardAnswer, Entry};
use host_numbers::{fill1, number_of, put};

// Numbers of an entry: cell, q and rest.
const PER_ENTRY: usize = 3;

// An entry's three numbers from a place on.
fn put_entry(found: &mut [u64], at: usize, entry: Entry)
    requires { at + 2 < 2 ^ 64 }
    ensures { found.new ≡ set (set (set found.old at entry.cell) (at + 1) entry.q) (at + 2) entry.rest }
{
    put(found, at, entry.cell);
    put(found, at + 1, entry.q);
    put(found, at + 2, entry.rest);
}

// All eight entries, after the place of how many are used.
fn fill_entries(entries: [Entry; BOARD_SIZE], found: &mut [u64])
    ensures { found.new ≡ entries_put board_size entries found.old }
{
    for (i, &entry) in entries.iter().enumerate() {
        put_entry(found, PER_ENTRY * i + 1, entry);
    }
}

// How many entries are used, then the numbers of all eight.
fn fill_board(used: u64, entries: [Entry; BOARD_SIZE], found: &mut [u64])
    ensures { found.new ≡ filled (used ∷ entry_numbers board_size entries) found.old }
{
    fill1(found, used);
    fill_entries(entries, found);
}

// The answer of a board: found are the number of entries used and the eight entries.
pub fn answered(answer: BoardAnswer, found: &mut [u64]) -> u64
    requires { number_of (board_said answer) < 2 ^ 64 }
    ensures { Answered shown_numbers (board_said answer) found.old result found.new }
{
    if let Err(refusal) = answer.verdict {
        return number_of(refusal);
    }
    fill_board(answer.used as u64, answer.entries, found);
    0
}

// The growers' board of a field.
#[unsafe(no_mangle)]
pub extern "C" fn lagoon_table_board(
    cells: usize,
    volumes: &[u64],
    masses: &[u64],
    found: &mut [u64],
) -> u64
    ensures { BoardFromC cells volumes.now masses.now found.old result found.new }
{
    let answer = board::board(cells, volumes, masses);
    answered(answer, found)
}

// Document 02's S-14: the board for the public.
#[unsafe(no_mangle)]
pub extern "C" fn lagoon_table_public_board(
    cells: usize,
    volumes: &[u64],
    masses: &[u64],
    marks: &[u64],
    found: &mut [u64],
) -> u64
    ensures { PublicBoardFromC cells volumes.now masses.now marks.now found.old result found.new }
{
    let answer = public_board::public_board(cells, volumes, masses, marks);
    answered(answer, found)
}
