// What is said on standard error of a read or a write that failed.
use std::io::{Error, Write};

// The bytes of the system's longest word for an error, and of the number that std puts after it.
const WORDS: usize = 128;

// A line on standard error: what failed, a colon and the system's word for the error.
pub fn fail(rt: &HostRuntime, what: &str, error: Error) {
    let mut room = [0u8; WORDS];
    let mut rest = &mut room[..];
    let _ = write!(rest, "{error}");
    let text = std::str::from_utf8(&room).unwrap_or("");
    let word = match text.rsplit_once(" (os error ") {
        Some((word, _)) => word,
        None => text.trim_end_matches('\0'),
    };
    let _ = eprintln!(rt; "{what}: {word}");
}
