// How the tests of a call are put together: a need, and the first of two that refuses.
ghost use Rattle.std.specs.Prelude.{◌≡◌};
ghost use Rattle.model.specs.Causes.{◌and_then◌, need as need_of, long as long_of, between as between_of};
ghost use Rattle.model.specs.Answers.{said, number};

use crate::{Cause, Refusal};

// Whether x lies in the range.
pub fn between(low: u64, high: u64, x: u64) -> bool
    ensures { result ≡ between_of low high x }
{
    if x < low {
        return false;
    }
    x <= high
}

// A refusal where the test fails.
pub fn need(cause: Cause, place: u64, good: bool) -> Result<(), Refusal>
    ensures { said result ≡ need_of (number cause) place good }
{
    if good {
        return Ok(());
    }
    Err(Refusal { cause, place })
}

// The first of two that refuses.
pub fn and_then(a: Result<(), Refusal>, b: Result<(), Refusal>) -> Result<(), Refusal>
    ensures { said result ≡ (said a and_then said b) }
{
    if let Err(r) = a {
        return Err(r);
    }
    b
}

// Whether a table has as many entries as wanted.
pub fn long(position: u64, wanted: usize, has: usize) -> Result<(), Refusal>
    ensures { said result ≡ long_of position wanted has }
{
    need(Cause::Table, position, wanted <= has)
}
