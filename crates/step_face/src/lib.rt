// The arithmetic of one face: what the water takes along, its correction, and what passes between its cells.
#![tactic(auto)]

pub mod correction;
pub mod exchange;
pub mod upwind;
