// What the calls from C share: the number that each answers, and the numbers that it finds.
#![tactic(auto)]

ghost use Rattle.std.specs.Prelude.{◌≡◌, [], ◌∷◌, ◌<◌, ◌^◌, set};
ghost use Rattle.model.specs.Answers.{number, said};
ghost use Rattle.host_answer.specs.Number.{refusal_number, number_of};
ghost use Rattle.host_answer.specs.Found.{filled};

use model::Refusal;

// What one more in the cause adds to the number of a refusal.
const CAUSE_STEP: u64 = 4294967296;

// The number of a refusal: CAUSE_STEP times the cause plus the place.
pub fn number_of(refusal: Refusal) -> u64
    requires { refusal_number (number refusal.cause) refusal.place < 2 ^ 64 }
    ensures { result ≡ refusal_number (number refusal.cause) refusal.place }
{
    let cause = refusal.cause;
    CAUSE_STEP * model::number(cause) + refusal.place
}

// The number of an answer that gives nothing but acceptance.
pub fn answer_number(answer: Result<(), Refusal>) -> u64
    requires { number_of (said answer) < 2 ^ 64 }
    ensures { result ≡ number_of (said answer) }
{
    match answer {
        Ok(()) => 0,
        Err(refusal) => number_of(refusal),
    }
}

// One number at its place, where there is room for it.
pub fn put(found: &mut [u64], at: usize, x: u64)
    ensures { found.new ≡ set found.old at x }
{
    if at < found.len() {
        found[at] = x;
    }
}

// One to four numbers at the front, as many as there is room for.
pub fn fill1(found: &mut [u64], a: u64)
    ensures { found.new ≡ filled (a ∷ []) found.old }
{
    put(found, 0, a);
}

pub fn fill2(found: &mut [u64], a: u64, b: u64)
    ensures { found.new ≡ filled (a ∷ b ∷ []) found.old }
{
    fill1(found, a);
    put(found, 1, b);
}

pub fn fill3(found: &mut [u64], a: u64, b: u64, c: u64)
    ensures { found.new ≡ filled (a ∷ b ∷ c ∷ []) found.old }
{
    fill2(found, a, b);
    put(found, 2, c);
}

pub fn fill4(found: &mut [u64], a: u64, b: u64, c: u64, d: u64)
    ensures { found.new ≡ filled (a ∷ b ∷ c ∷ d ∷ []) found.old }
{
    fill3(found, a, b, c);
    put(found, 3, d);
}
