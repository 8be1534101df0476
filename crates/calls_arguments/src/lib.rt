// The arguments of a call that is asked for in text, and its tables printed. Nothing here asks anything of its caller.
#![tactic(auto)]

pub mod parts;
pub mod show;

// The first words say where each argument stands, the numbers of the call follow.
pub const MARKS: usize = 32;

// The most numbers of one call.
pub const MOST: usize = 120000;

pub const WORDS: usize = MARKS + MOST;

// The most entries of a table, of one that is lent for a part of a lagoon, and the most bytes of a record.
pub const ROOM: usize = 24576;

pub const PART_ROOM: usize = 8192;

pub const BYTES_ROOM: usize = 65536;
