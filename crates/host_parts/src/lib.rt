// What a cutting answers a host program in C: both parts' counts as numbers that are found.
#![tactic(auto)]

ghost use Rattle.std.specs.Prelude.{◌<◌, ◌^◌};
ghost use Rattle.cutting.specs.Promise.{cut_said};
ghost use Rattle.host_answer.specs.Number.{number_of};
ghost use Rattle.host_answer.specs.Found.{Answered};
ghost use Rattle.host_parts.specs.Parts.{counted};

use cutting::Counts;
use host_numbers::{fill4, number_of};
use model::Refusal;

// Its answer: found are cells and faces of part 0, then of part 1.
pub fn answered(answer: Result<Counts, Refusal>, found: &mut [u64]) -> u64
    requires { number_of (cut_said answer) < 2 ^ 64 }
    ensures { Answered counted (cut_said answer) found.old result found.new }
{
    match answer {
        Ok(counts) => {
            fill4(
                found,
                counts.cells_0 as u64,
                counts.faces_0 as u64,
                counts.cells_1 as u64,
                counts.faces_1 as u64,
            );
            0
        }
        Err(refusal) => number_of(refusal),
    }
}
