// Numbers and letters as text, put one after another into bytes that are lent.
#![tactic(auto)]

ghost use Rattle.std.specs.Prelude.{◌≡◌, ◌+◌, ◌-◌, ◌≤◌, length};
ghost use Rattle.std.proofs.Math.Seq.{paste};
ghost use Rattle.text.specs.Digits.{most_digits};
ghost use Rattle.text.specs.Lines.{Puts, word as word_of, column as column_of, mark as mark_of};

use lists::least;

// The digits of the largest number.
pub const DIGITS: usize = 20;

pub const SPACE: u8 = 32;

pub const NEWLINE: u8 = 10;

fn copy(lent: &mut [u8], at: usize, bytes: &[u8])
    requires { at + length bytes.now ≤ length lent.old }
    ensures { lent.new ≡ paste lent.old at bytes.now (length bytes.now) }
{
    lent[at..at + bytes.len()].copy_from_slice(bytes);
}

// Bytes after the first `at` of those lent, as many as there is room for. Answers where they end.
pub fn append(lent: &mut [u8], at: usize, bytes: &[u8]) -> usize
    ensures { Puts lent.old at bytes.now result lent.new }
{
    let start = least(at, lent.len());
    let count = least(lent.len() - start, bytes.len());
    copy(lent, start, &bytes[..count]);
    start + count
}

// What is left of a width.
fn left(width: usize, used: usize) -> usize
    ensures { result ≡ width - used }
{
    if used < width { width - used } else { 0 }
}

// A number right-aligned in so many columns, and the byte after it.
pub fn column(lent: &mut [u8], at: usize, width: usize, n: u64, after: u8) -> usize
    requires { width ≤ most_digits }
    ensures { Puts lent.old at (column_of width n after) result lent.new }
{
    let mut figures = [0u8; DIGITS];
    let count = io::decimal(n, &mut figures);
    let blanks = [SPACE; DIGITS];
    let start = append(lent, at, &blanks[..left(width, count)]);
    let end = append(lent, start, &figures[..count]);
    append(lent, end, &[after])
}

// A number and the byte after it.
pub fn word(lent: &mut [u8], at: usize, n: u64, after: u8) -> usize
    ensures { Puts lent.old at (word_of n after) result lent.new }
{
    column(lent, at, 0, n, after)
}

// A letter and a space.
pub fn mark(lent: &mut [u8], at: usize, letter: u8) -> usize
    ensures { Puts lent.old at (mark_of letter) result lent.new }
{
    append(lent, at, &[letter, SPACE])
}
