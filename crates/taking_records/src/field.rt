// A field record.
ghost use Rattle.taking.specs.Taking.{FieldTaking};

use model::{RUN_CELLS, Refusal, positions};
use record_layouts::Width;

// A field on these cells, and its total.
pub fn take_field(
    width: Width,
    cells: usize,
    bytes: &[u8],
    volumes: &[u64],
    masses: &mut [u64],
) -> Result<u64, Refusal>
    ensures { FieldTaking width cells volumes.now bytes.now masses.old result masses.new }
{
    let mut read = [0u64; RUN_CELLS];
    record_reading::read_field(width, cells, bytes, &mut read)?;
    model::needs::long(positions::MASSES, cells, masses.len())?;
    let counted = &read[..cells];
    let total = checks::total(cells, volumes, counted)?;
    lists::copy(counted, masses);
    Ok(total)
}
