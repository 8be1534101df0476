// The calls on the totals of a period: a step's moved masses added, and a total charged.
#![tactic(auto)]

use calls_arguments::parts::{amounts, copy, number, table};
use calls_arguments::{ROOM, show};
use charge::Billed;
use model::Refusal;

#[inline(never)]
pub fn add(rt: &HostRuntime, words: &[u64], ints: &[i64]) {
    let mut entries = [0u64; ROOM];
    show::word(rt, b"add:");
    let n = copy(table(words, 3), &mut entries);
    calls_answers::verdict(
        rt,
        charge_totals::add(
            number(words, 0),
            table(words, 1),
            amounts(words, ints, 2),
            &mut entries[..n],
        ),
    );
    show::numbers(rt, b"; totals", n, &entries);
}

// Cents and the remainder.
fn charged(rt: &HostRuntime, said: Result<Billed, Refusal>) {
    match said {
        Ok(bill) => {
            calls_answers::accepted_with(rt, bill.cents);
            show::number(rt, bill.remainder);
        }
        Err(refusal) => calls_answers::refused(rt, refusal),
    }
}

#[inline(never)]
pub fn charge(rt: &HostRuntime, words: &[u64]) {
    show::word(rt, b"charge:");
    charged(
        rt,
        charge::charge(
            number(words, 0) as u64,
            number(words, 1),
            table(words, 2),
            table(words, 3),
            number(words, 4) as u64,
        ),
    );
}
