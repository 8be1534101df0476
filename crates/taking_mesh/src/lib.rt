// What a mesh record comes to, in the run and in the host's call. It is read into tables of the callee's own and judged; the lent tables
// are changed last, so that a refusal leaves them as they were.
#![tactic(auto)]

mod mesh;

pub use mesh::take_mesh;
