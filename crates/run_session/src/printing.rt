// The run's lines on standard output. Those of the steps are held one after another and written together.
ghost use Rattle.std.specs.Prelude.{◌≡◌, cond, ◌++◌, ◌+◌, ◌≤◌, leb, length, take};
ghost use Rattle.io.specs.Counts.{IsPrefixLen};
ghost use Rattle.run_session.specs.Session.{line_bytes, lines_bytes};

use crate::faults::fail;
use run_lines::{LINE, Line};
use std::env::{Env, FillError};
use std::io::IsTerminal;

// How many bytes of lines are held: no more than a pipe takes whole, so that a write that does not wait cuts no line in two.
pub const LINES: usize = 4096;

// How many bytes of lines are not yet written, and whether a write failed.
#[derive(Clone, Copy)]
pub struct Unwritten {
    pub count: usize,
    pub failed: bool,
}

// Lines on standard output, or a word on standard error where they are lost.
pub fn write(rt: &HostRuntime, lines: &[u8], count: usize) -> bool
    requires { count ≤ length lines.now }
{
    match rt.write_all(&lines[..count]) {
        Ok(()) => true,
        Err(error) => {
            fail(rt, "run: standard output", error);
            false
        }
    }
}

// A line by itself.
pub fn print(rt: &HostRuntime, line: Line) -> bool
    requires { IsPrefixLen line.used line.bytes }
{
    let bytes = line.bytes;
    let used = line.used;
    write(rt, &bytes, used)
}

// Those held, written. Answers what is left of them: none, or all where they are lost.
pub fn flush(rt: &HostRuntime, lines: &[u8], unwritten: usize) -> Unwritten
    requires { unwritten ≤ length lines.now }
    ensures { result.count ≡ cond result.failed unwritten 0 }
{
    let lost = !write(rt, lines, unwritten);
    let mut left = 0;
    if lost {
        left = unwritten;
    }
    Unwritten {
        count: left,
        failed: lost,
    }
}

// Those held are written where one more might not fit.
pub fn make_room(rt: &HostRuntime, lines: &[u8; LINES], unwritten: usize) -> Unwritten
    requires { unwritten ≤ lines_bytes }
    ensures { (result.count + line_bytes ≤ lines_bytes) × (result.count ≡ cond (leb (unwritten + line_bytes) lines_bytes) unwritten 0) }
{
    if unwritten + LINE <= LINES {
        return Unwritten {
            count: unwritten,
            failed: false,
        };
    }
    Unwritten {
        count: 0,
        failed: !write(rt, lines, unwritten),
    }
}

// A line after those held. Answers where it ends.
pub fn add(line: Line, lines: &mut [u8], unwritten: usize) -> usize
    requires { IsPrefixLen line.used line.bytes × (unwritten + line.used ≤ length lines.old) }
    ensures { (result ≡ unwritten + line.used) × (take result lines.new ≡ take unwritten lines.old ++ take line.used line.bytes) }
{
    let bytes = line.bytes;
    let used = line.used;
    text::append(lines, unwritten, &bytes[..used])
}

// A word to whoever gives arguments or sits at a terminal and does not know that a session is awaited.
pub fn greet(rt: &HostRuntime) {
    let mut first = [0u8; 1];
    let asked = !matches!(rt.arg(1, &mut first), Err(FillError::NotPresent));
    let terminal = rt.stdin().is_terminal();
    if asked || terminal {
        let _ = rt.eprint("run: reads a session from standard input; see README.md\n");
    }
}
