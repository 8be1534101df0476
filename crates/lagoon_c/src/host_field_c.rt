// The calls of host_field.
ghost use Rattle.host_field_promises.specs.Field.{TotalFromC, PageFromC, PublicPageFromC};

// The sum of a field's masses.
#[unsafe(no_mangle)]
pub extern "C" fn lagoon_table_total(
    cells: usize,
    volumes: &[u64],
    masses: &[u64],
    found: &mut [u64],
) -> u64
    ensures { TotalFromC cells volumes.now masses.now found.old result found.new }
{
    host_field::lagoon_table_total(cells, volumes, masses, found)
}

// Document 02's S-1: a page of the binder.
#[unsafe(no_mangle)]
pub extern "C" fn lagoon_table_page(
    cells: usize,
    volumes: &[u64],
    masses: &[u64],
    page: u32,
    bytes: &mut [u8],
    found: &mut [u64],
) -> u64
    ensures { PageFromC volumes.now masses.now cells page bytes.old found.old result bytes.new
        found.new }
{
    host_field::lagoon_table_page(cells, volumes, masses, page, bytes, found)
}

// Document 02's S-14: a page for the public.
#[unsafe(no_mangle)]
pub extern "C" fn lagoon_table_public_page(
    cells: usize,
    volumes: &[u64],
    masses: &[u64],
    page: u32,
    bytes: &mut [u8],
    marks: &[u64],
    found: &mut [u64],
) -> u64
    ensures { PublicPageFromC volumes.now masses.now marks.now cells page bytes.old found.old
        result bytes.new found.new }
{
    host_field::lagoon_table_public_page(cells, volumes, masses, page, bytes, marks, found)
}
