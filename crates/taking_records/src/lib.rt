// What a field and a step record come to, in the run and in the host's call. Each is read into tables of the callee's own and judged;
// the lent masses are changed last, so that a refusal leaves them as they were.
#![tactic(auto)]

mod field;
mod step;

pub use field::take_field;
pub use step::{take_step, take_step_in};
