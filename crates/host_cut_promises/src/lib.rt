// What the call that cuts a lagoon in records promises: definitions and laws, and the numbers that its parts hand on.
#![tactic(auto)]

// The bytes that the records of one part take.
#[derive(Clone, Copy)]
pub struct PartLengths {
    pub mesh: u64,
    pub field: u64,
    pub step: u64,
}

// Those of part 0, then of part 1.
#[derive(Clone, Copy)]
pub struct CutLengths {
    pub mesh_0: u64,
    pub field_0: u64,
    pub step_0: u64,
    pub mesh_1: u64,
    pub field_1: u64,
    pub step_1: u64,
}
