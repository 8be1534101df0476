// The arguments of a call, by their place in its signature. What is not there reads as 0 or as no entry.
ghost use Rattle.std.specs.Prelude.{◌≤◌, ◌≡◌, length, take};
ghost use Rattle.io.specs.Counts.{IsPrefixLen};

use crate::MARKS;

// One more than the greatest signed number.
const HALF: u64 = 9223372036854775808;

// The word at which an argument stands.
fn mark(words: &[u64], argument: usize) -> usize {
    if argument < MARKS {
        if argument < words.len() {
            return words[argument] as usize;
        }
    }
    words.len()
}

pub fn number(words: &[u64], argument: usize) -> usize {
    let at = mark(words, argument);
    if at < words.len() {
        return words[at] as usize;
    }
    0
}

// Where a table begins and ends.
#[derive(Clone, Copy)]
struct Extent {
    from: usize,
    to: usize,
}

fn extent_of(words: &[u64], argument: usize) -> Extent
    ensures { (result.from ≤ result.to) × (result.to ≤ length words.now) }
{
    let at = mark(words, argument);
    if at < words.len() {
        let n = words[at] as usize;
        let from = at + 1;
        if n <= words.len() - from {
            return Extent {
                from: from,
                to: from + n,
            };
        }
    }
    Extent { from: 0, to: 0 }
}

pub fn table(words: &[u64], argument: usize) -> &[u64] {
    let s = extent_of(words, argument);
    let from = s.from;
    let to = s.to;
    &words[from..to]
}

// The same part of the words as signed numbers, and as bytes.
pub fn amounts<'a>(words: &[u64], ints: &'a [i64], argument: usize) -> &'a [i64] {
    let s = extent_of(words, argument);
    let from = s.from;
    let to = s.to;
    if to <= ints.len() {
        return &ints[from..to];
    }
    &ints[..0]
}

pub fn octets<'a>(words: &[u64], bytes: &'a [u8], argument: usize) -> &'a [u8] {
    let s = extent_of(words, argument);
    let from = s.from;
    let to = s.to;
    if to <= bytes.len() {
        return &bytes[from..to];
    }
    &bytes[..0]
}

// The entries of a table that a call fills. Answers how many.
pub fn copy(from: &[u64], to: &mut [u64]) -> usize
    ensures { IsPrefixLen result to.new }
{
    let n = from.len().min(to.len());
    to[..n].copy_from_slice(&from[..n]);
    n
}

pub fn copy_amounts(from: &[i64], to: &mut [i64]) -> usize
    ensures { (result ≤ length to.new) × (result ≡ length (take result to.new)) }
{
    let n = from.len().min(to.len());
    to[..n].copy_from_slice(&from[..n]);
    n
}

fn byte_of(x: u64) -> u8 {
    if x < 256 { x as u8 } else { 0 }
}

// A table's entries as bytes. Answers how many.
pub fn bytes(from: &[u64], to: &mut [u8]) -> usize
    ensures { IsPrefixLen result to.new }
{
    let n = from.len().min(to.len());
    for i in 0..n {
        to[i] = byte_of(from[i]);
    }
    n
}

// The signed number that a word stands for: from 2^63 on it is the word less 2^64.
fn amount_of(x: u64) -> i64 {
    if x < HALF {
        return x as i64;
    }
    let below = u64::MAX - x;
    let v = below as i64;
    !v
}

// A table's entries as signed numbers.
pub fn signed_numbers(from: &[u64], to: &mut [i64]) {
    for (t, x) in to.iter_mut().zip(from) {
        *t = amount_of(*x);
    }
}
