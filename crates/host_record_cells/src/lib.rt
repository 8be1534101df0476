// The total and the pages of a field in records, for a host program in C.
#![tactic(auto)]

ghost use Rattle.host_answer.specs.Found.{alone, Answered};
ghost use Rattle.host_record_promises.specs.Cells.{total_found, PageTaking, PagePromise, PublicTaking, PublicPromise};

use host_field::page_answered;
use host_numbers::{fill1, number_of};
use host_taking::take_cells;
use model::{RUN_CELLS, Refusal};

// The total of a field record.
#[unsafe(no_mangle)]
pub extern "C" fn lagoon_total(mesh: &[u8], field: &[u8], found: &mut [u64]) -> u64
    ensures { Answered alone (total_found mesh.now field.now) found.old result found.new }
{
    let mut volumes = [0u64; RUN_CELLS];
    let mut masses = [0u64; RUN_CELLS];
    let a = take_cells(mesh, field, &mut volumes, &mut masses);
    match a {
        Err(refusal) => number_of(refusal),
        Ok(counts) => {
            fill1(found, counts.total);
            0
        }
    }
}

// A page of the field in the records.
fn page_of(mesh: &[u8], field: &[u8], page: u64, bytes: &mut [u8]) -> Result<u64, Refusal>
    ensures { PageTaking mesh.now field.now page bytes.old result bytes.new }
{
    let mut volumes = [0u64; RUN_CELLS];
    let mut masses = [0u64; RUN_CELLS];
    let counts = take_cells(mesh, field, &mut volumes, &mut masses)?;
    let cells = counts.cells;
    page::page(cells, &volumes[..cells], &masses[..cells], page, bytes)
}

// The same for the public, with marks of the cells.
fn public_page_of(
    mesh: &[u8],
    field: &[u8],
    page: u64,
    bytes: &mut [u8],
    marks: &[u64],
) -> Result<u64, Refusal>
    ensures { PublicTaking mesh.now field.now marks.now page bytes.old result bytes.new }
{
    let mut volumes = [0u64; RUN_CELLS];
    let mut masses = [0u64; RUN_CELLS];
    let counts = take_cells(mesh, field, &mut volumes, &mut masses)?;
    let cells = counts.cells;
    public_page::public_page(
        cells,
        &volumes[..cells],
        &masses[..cells],
        page,
        bytes,
        marks,
    )
}

// A page of the binder.
#[unsafe(no_mangle)]
pub extern "C" fn lagoon_page(
    mesh: &[u8],
    field: &[u8],
    page: u32,
    bytes: &mut [u8],
    found: &mut [u64],
) -> u64
    ensures { PagePromise mesh.now field.now page bytes.old found.old result
        bytes.new found.new }
{
    let answer = page_of(mesh, field, page as u64, bytes);
    page_answered(answer, found)
}

// A page of the binder for the public.
#[unsafe(no_mangle)]
pub extern "C" fn lagoon_public_page(
    mesh: &[u8],
    field: &[u8],
    page: u32,
    bytes: &mut [u8],
    marks: &[u64],
    found: &mut [u64],
) -> u64
    ensures { PublicPromise mesh.now field.now marks.now page bytes.old found.old result
        bytes.new found.new }
{
    let answer = public_page_of(mesh, field, page as u64, bytes, marks);
    page_answered(answer, found)
}
