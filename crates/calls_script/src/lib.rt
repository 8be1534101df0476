// Calls as text, read from standard input one number after another. Nothing here asks anything of its caller.
#![tactic(auto)]

pub mod faults;
pub mod input;
pub mod wants;
