// The calls of host_record_cells.
ghost use Rattle.host_answer.specs.Found.{alone, Answered};
ghost use Rattle.host_record_promises.specs.Cells.{total_found, PagePromise, PublicPromise};

// The total of a field record.
#[unsafe(no_mangle)]
pub extern "C" fn lagoon_total(mesh: &[u8], field: &[u8], found: &mut [u64]) -> u64
    ensures { Answered alone (total_found mesh.now field.now) found.old result found.new }
{
    host_record_cells::lagoon_total(mesh, field, found)
}

// A page of the binder.
#[unsafe(no_mangle)]
pub extern "C" fn lagoon_page(
    mesh: &[u8],
    field: &[u8],
    page: u32,
    bytes: &mut [u8],
    found: &mut [u64],
) -> u64
    ensures { PagePromise mesh.now field.now page bytes.old found.old result
        bytes.new found.new }
{
    host_record_cells::lagoon_page(mesh, field, page, bytes, found)
}

// A page of the binder for the public.
#[unsafe(no_mangle)]
pub extern "C" fn lagoon_public_page(
    mesh: &[u8],
    field: &[u8],
    page: u32,
    bytes: &mut [u8],
    marks: &[u64],
    found: &mut [u64],
) -> u64
    ensures { PublicPromise mesh.now field.now marks.now page bytes.old found.old result
        bytes.new found.new }
{
    host_record_cells::lagoon_public_page(mesh, field, page, bytes, marks, found)
}
