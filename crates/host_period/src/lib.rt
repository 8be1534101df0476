// Adding and charging, and the calls on a store, for a host program in C.
#![tactic(auto)]

ghost use Rattle.std.specs.Prelude.{◌<◌, ◌^◌};
ghost use Rattle.charge.specs.Answers.{charge_said};
ghost use Rattle.host_answer.specs.Number.{number_of};
ghost use Rattle.host_answer.specs.Found.{Answered};
ghost use Rattle.host_period_promises.specs.Period.{billed, AddFromC, ChargeFromC};
ghost use Rattle.host_period_promises.specs.Kept.{KeepFromC, DropFromC, ReturnFromC};

use charge::Billed;
use host_numbers::{answer_number, fill2, number_of};
use model::Refusal;

// Document 02's S-13: what a step moved outward over the rim, added to the totals of a period.
#[unsafe(no_mangle)]
pub extern "C" fn lagoon_add(
    faces: usize,
    seconds: &[u64],
    moved: &[i64],
    totals: &mut [u64],
) -> u64
    ensures { AddFromC seconds.now moved.now totals.old faces result totals.new }
{
    let answer = charge_totals::add(faces, seconds, moved, totals);
    answer_number(answer)
}

// A charge's answer: found are cents and the new remainder.
fn charged(answer: Result<Billed, Refusal>, found: &mut [u64]) -> u64
    requires { number_of (charge_said answer) < 2 ^ 64 }
    ensures { Answered billed (charge_said answer) found.old result found.new }
{
    match answer {
        Ok(bill) => {
            fill2(found, bill.cents, bill.remainder);
            0
        }
        Err(refusal) => number_of(refusal),
    }
}

// A total charged band by band.
#[unsafe(no_mangle)]
pub extern "C" fn lagoon_charge(
    total: u64,
    bands: usize,
    ends: &[u64],
    prices: &[u64],
    remainder: u64,
    found: &mut [u64],
) -> u64
    ensures { ChargeFromC ends.now prices.now total bands remainder found.old result found.new }
{
    let answer = charge::charge(total, bands, ends, prices, remainder);
    charged(answer, found)
}

// Document 02's S-4: a field kept under a name.
#[unsafe(no_mangle)]
pub extern "C" fn lagoon_keep(
    cells: usize,
    volumes: &[u64],
    masses: &[u64],
    store: &mut [u64],
    name: u32,
) -> u64
    ensures { KeepFromC cells volumes.now masses.now store.old name result store.new }
{
    let answer = store::keep(cells, volumes, masses, store, name as u64);
    answer_number(answer)
}

// The field of a name dropped.
#[unsafe(no_mangle)]
pub extern "C" fn lagoon_drop(cells: usize, store: &mut [u64], name: u32) -> u64
    ensures { DropFromC cells store.old name result store.new }
{
    let answer = store::drop(cells, store, name as u64);
    answer_number(answer)
}

// The masses filled with those kept under a name.
#[unsafe(no_mangle)]
pub extern "C" fn lagoon_give_back(
    cells: usize,
    volumes: &[u64],
    masses: &mut [u64],
    store: &[u64],
    name: u32,
) -> u64
    ensures { ReturnFromC cells volumes.now masses.old store.now name result masses.new }
{
    let answer = store::give_back(cells, volumes, masses, store, name as u64);
    answer_number(answer)
}
