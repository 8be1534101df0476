// What a call asks for: its arguments, each of the kind that its shape names.
ghost use Rattle.std.specs.Prelude.{◌≡◌, ◌+◌, IfOk};

use crate::faults::Fault;
use crate::input::Script;
use calls_arguments::{BYTES_ROOM, MARKS, PART_ROOM, ROOM, WORDS};
use calls_numerals::Number;

// What an argument is: a number, or a table, which its length leads. The last two are lent for a part of a lagoon.
#[derive(Clone, Copy, Debug, PartialEq, Eq)]
pub enum Kind {
    Number,
    Table,
    Amounts,
    Bytes,
    PartTable,
    PartAmounts,
}

// One more than the greatest signed number, and the greatest byte.
const HALF: u64 = 9223372036854775808;

const MOST_BYTE: u64 = 255;

fn at_most(most: u64, n: Number, fault: Fault) -> Result<(), Fault> {
    if n.minus {
        return Err(Fault::Sign);
    }
    if most < n.size {
        return Err(fault);
    }
    Ok(())
}

// A signed number: the most negative one has a size of its own.
fn amount(n: Number) -> Result<(), Fault> {
    if n.size < HALF || n.minus && n.size == HALF {
        Ok(())
    } else {
        Err(Fault::TooLarge)
    }
}

// An entry of a table.
fn entry(kind: Kind, n: Number) -> Result<(), Fault> {
    match kind {
        Kind::Amounts | Kind::PartAmounts => amount(n),
        Kind::Bytes => at_most(MOST_BYTE, n, Fault::TooLarge),
        Kind::Number | Kind::Table | Kind::PartTable => at_most(u64::MAX, n, Fault::TooLarge),
    }
}

// A number that is an argument, or the length of one.
fn head(kind: Kind, n: Number) -> Result<(), Fault> {
    match kind {
        Kind::Number => at_most(u64::MAX, n, Fault::TooLarge),
        Kind::Table | Kind::Amounts => at_most(ROOM as u64, n, Fault::LongTable),
        Kind::Bytes => at_most(BYTES_ROOM as u64, n, Fault::LongTable),
        Kind::PartTable | Kind::PartAmounts => at_most(PART_ROOM as u64, n, Fault::LongTable),
    }
}

// How many entries follow.
fn entries(kind: Kind, n: Number) -> u64 {
    if kind == Kind::Number { 0 } else { n.size }
}

// A number as a word: one below 0 counts down from 2^64.
fn word_of(n: Number) -> u64 {
    if n.minus {
        0u64.wrapping_sub(n.size)
    } else {
        n.size
    }
}

fn put(words: &mut [u64], k: usize, x: u64) {
    if k < words.len() {
        words[k] = x;
    }
}

// A number kept at k, and where the next one is kept. The last word may not be used.
fn keep(words: &mut [u64], k: usize, n: Number) -> Result<usize, Fault>
    ensures { IfOk result (λ next. next ≡ k + 1) }
{
    put(words, k, word_of(n));
    if k < WORDS - 1 {
        Ok(k + 1)
    } else {
        Err(Fault::LongCall)
    }
}

// The next number, within a call.
fn next(rt: &HostRuntime, script: &mut Script) -> Result<Number, Fault> {
    script.next(rt)?.ok_or(Fault::Cut)
}

// So many entries of a table, kept from k on, and where the next argument is kept.
fn table(
    rt: &HostRuntime,
    kind: Kind,
    entries: u64,
    k: usize,
    words: &mut [u64],
    script: &mut Script,
) -> Result<usize, Fault>
    ensures { IfOk result (λ next. next ≡ k + entries) }
{
    let mut at = k;
    for _i in 0..entries {
        let n = next(rt, script)?;
        entry(kind, n)?;
        at = keep(words, at, n)?;
    }
    Ok(at)
}

// One argument, kept from k on, and where the next one is kept.
fn argument(
    rt: &HostRuntime,
    kind: Kind,
    k: usize,
    words: &mut [u64],
    script: &mut Script,
) -> Result<usize, Fault> {
    let n = next(rt, script)?;
    head(kind, n)?;
    let k = keep(words, k, n)?;
    table(rt, kind, entries(kind, n), k, words, script)
}

// The arguments of a call, and before them where each begins.
pub fn arguments(
    rt: &HostRuntime,
    kinds: &[Kind],
    words: &mut [u64],
    script: &mut Script,
) -> Result<(), Fault> {
    let mut k = MARKS;
    for (i, kind) in kinds.iter().enumerate() {
        put(words, i, k as u64);
        k = argument(rt, *kind, k, words, script)?;
    }
    Ok(())
}
