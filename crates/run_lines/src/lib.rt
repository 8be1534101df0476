// The lines of the run program, as values.
#![tactic(auto)]

ghost use Rattle.run_lines.specs.Lines.{Holds, refusal_line, step_line, refused_step_line, board_line};

use text::{DIGITS, NEWLINE, SPACE, mark, word};

// The longest line: five numbers, each with a byte after it.
pub const LINE: usize = 5 * (DIGITS + 1);

// A line of at most LINE bytes, of which the first `used` count.
#[derive(Clone, Copy)]
pub struct Line {
    pub bytes: [u8; LINE],
    pub used: usize,
}

// `M` or `F`, number, place.
pub fn refusal_line(letter: u8, number: u64, place: u64) -> Line
    ensures { Holds result (refusal_line letter number place) }
{
    let mut bytes = [0u8; LINE];
    let a = mark(&mut bytes, 0, letter);
    let b = word(&mut bytes, a, number, SPACE);
    let used = word(&mut bytes, b, place, NEWLINE);
    Line {
        bytes: bytes,
        used: used,
    }
}

// Step number, in-mass, out-mass, total, released mass.
pub fn step_line(step: u64, entered: u64, gone: u64, total: u64, released: u64) -> Line
    ensures { Holds result (step_line step entered gone total released) }
{
    let mut bytes = [0u8; LINE];
    let a = word(&mut bytes, 0, step, SPACE);
    let b = word(&mut bytes, a, entered, SPACE);
    let c = word(&mut bytes, b, gone, SPACE);
    let d = word(&mut bytes, c, total, SPACE);
    let used = word(&mut bytes, d, released, NEWLINE);
    Line {
        bytes: bytes,
        used: used,
    }
}

// Step number, `R`, number, place.
pub fn refused_step_line(step: u64, number: u64, place: u64) -> Line
    ensures { Holds result (refused_step_line step number place) }
{
    let mut bytes = [0u8; LINE];
    let a = word(&mut bytes, 0, step, SPACE);
    let b = mark(&mut bytes, a, b'R');
    let c = word(&mut bytes, b, number, SPACE);
    let used = word(&mut bytes, c, place, NEWLINE);
    Line {
        bytes: bytes,
        used: used,
    }
}

// `B`, cell, q, rest.
pub fn board_line(cell: u64, q: u64, rest: u64) -> Line
    ensures { Holds result (board_line cell q rest) }
{
    let mut bytes = [0u8; LINE];
    let a = mark(&mut bytes, 0, b'B');
    let b = word(&mut bytes, a, cell, SPACE);
    let c = word(&mut bytes, b, q, SPACE);
    let used = word(&mut bytes, c, rest, NEWLINE);
    Line {
        bytes: bytes,
        used: used,
    }
}
