// The board's lines, put one after another into lent bytes.
#![tactic(auto)]

ghost use Rattle.std.specs.Prelude.{◌≡◌, ◌++◌, ◌+◌, ◌≤◌, length, take};
ghost use Rattle.board.specs.Board.{board_size};
ghost use Rattle.run_lines.specs.Lines.{board_line};
ghost use Rattle.run_session.specs.Session.{line_bytes};
ghost use Rattle.run_board.specs.BoardLines.{board_lines, board_bytes};

use board::{BOARD_SIZE, BoardAnswer, Entry};
use run_lines::LINE;

// How many bytes hold a line for each entry.
pub const BOARD_BYTES: usize = BOARD_SIZE * LINE;

// An entry's line after those put. Answers where it ends.
fn put_entry(entry: Entry, lines: &mut [u8], at: usize) -> usize
    requires { at + line_bytes ≤ length lines.old }
    ensures { (result ≤ at + line_bytes)
        × (take result lines.new ≡ take at lines.old ++ board_line entry.cell entry.q entry.rest) }
{
    run_session::add(
        run_lines::board_line(entry.cell, entry.q, entry.rest),
        lines,
        at,
    )
}

// A line for each entry used. Answers where they end.
pub fn put(answer: BoardAnswer, lines: &mut [u8]) -> usize
    requires { (answer.used ≤ board_size) × (length answer.entries ≡ board_size) × (board_bytes ≤ length lines.old) }
    ensures { (result ≤ board_bytes) × (take result lines.new ≡ board_lines (take answer.used answer.entries)) }
{
    let entries = answer.entries;
    let used = answer.used;
    let mut at = 0;
    for i in 0..used {
        at = put_entry(entries[i], lines, at);
    }
    at
}
