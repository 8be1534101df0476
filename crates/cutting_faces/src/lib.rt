// Document 02, S-12: the tables of a part's faces, each filled from those of the whole by the one loop over them.
#![tactic(auto)]

pub mod columns;
pub mod faces;
