// What is made of a field, for a host program in C: its total, and the pages of the binder.
#![tactic(auto)]

ghost use Rattle.std.specs.Prelude.{◌<◌, ◌^◌};
ghost use Rattle.checks.specs.Total.{total_said};
ghost use Rattle.page.specs.Answers.{page_said};
ghost use Rattle.host_answer.specs.Number.{number_of};
ghost use Rattle.host_answer.specs.Found.{alone, Answered};
ghost use Rattle.host_field_promises.specs.Field.{TotalFromC, PageFromC, PublicPageFromC};

use host_numbers::{fill1, number_of};
use model::Refusal;

// The answer of a total: found is the total.
pub fn total_answered(answer: Result<u64, Refusal>, found: &mut [u64]) -> u64
    requires { number_of (total_said answer) < 2 ^ 64 }
    ensures { Answered alone (total_said answer) found.old result found.new }
{
    match answer {
        Ok(total) => {
            fill1(found, total);
            0
        }
        Err(refusal) => number_of(refusal),
    }
}

// The answer of a page: found is its length.
pub fn page_answered(answer: Result<u64, Refusal>, found: &mut [u64]) -> u64
    requires { number_of (page_said answer) < 2 ^ 64 }
    ensures { Answered alone (page_said answer) found.old result found.new }
{
    match answer {
        Ok(length) => {
            fill1(found, length);
            0
        }
        Err(refusal) => number_of(refusal),
    }
}

// The sum of a field's masses.
#[unsafe(no_mangle)]
pub extern "C" fn lagoon_table_total(
    cells: usize,
    volumes: &[u64],
    masses: &[u64],
    found: &mut [u64],
) -> u64
    ensures { TotalFromC cells volumes.now masses.now found.old result found.new }
{
    let answer = checks::total(cells, volumes, masses);
    total_answered(answer, found)
}

// Document 02's S-1: a page of the binder.
#[unsafe(no_mangle)]
pub extern "C" fn lagoon_table_page(
    cells: usize,
    volumes: &[u64],
    masses: &[u64],
    page: u32,
    bytes: &mut [u8],
    found: &mut [u64],
) -> u64
    ensures { PageFromC volumes.now masses.now cells page bytes.old found.old result bytes.new
        found.new }
{
    let answer = page::page(cells, volumes, masses, page as u64, bytes);
    page_answered(answer, found)
}

// Document 02's S-14: a page for the public.
#[unsafe(no_mangle)]
pub extern "C" fn lagoon_table_public_page(
    cells: usize,
    volumes: &[u64],
    masses: &[u64],
    page: u32,
    bytes: &mut [u8],
    marks: &[u64],
    found: &mut [u64],
) -> u64
    ensures { PublicPageFromC volumes.now masses.now marks.now cells page bytes.old found.old
        result bytes.new found.new }
{
    let answer = public_page::public_page(cells, volumes, masses, page as u64, bytes, marks);
    page_answered(answer, found)
}
