// The calls of host_period.
ghost use Rattle.host_period_promises.specs.Period.{AddFromC, ChargeFromC};
ghost use Rattle.host_period_promises.specs.Kept.{KeepFromC, DropFromC, ReturnFromC};

// Document 02's S-13: what a step moved outward over the rim, added to the totals of a period.
#[unsafe(no_mangle)]
pub extern "C" fn lagoon_add(
    faces: usize,
    seconds: &[u64],
    moved: &[i64],
    totals: &mut [u64],
) -> u64
    ensures { AddFromC seconds.now moved.now totals.old faces result totals.new }
{
    host_period::lagoon_add(faces, seconds, moved, totals)
}

// A total charged band by band.
#[unsafe(no_mangle)]
pub extern "C" fn lagoon_charge(
    total: u64,
    bands: usize,
    ends: &[u64],
    prices: &[u64],
    remainder: u64,
    found: &mut [u64],
) -> u64
    ensures { ChargeFromC ends.now prices.now total bands remainder found.old result found.new }
{
    host_period::lagoon_charge(total, bands, ends, prices, remainder, found)
}

// Document 02's S-4: a field kept under a name.
#[unsafe(no_mangle)]
pub extern "C" fn lagoon_keep(
    cells: usize,
    volumes: &[u64],
    masses: &[u64],
    store: &mut [u64],
    name: u32,
) -> u64
    ensures { KeepFromC cells volumes.now masses.now store.old name result store.new }
{
    host_period::lagoon_keep(cells, volumes, masses, store, name)
}

// The field of a name dropped.
#[unsafe(no_mangle)]
pub extern "C" fn lagoon_drop(cells: usize, store: &mut [u64], name: u32) -> u64
    ensures { DropFromC cells store.old name result store.new }
{
    host_period::lagoon_drop(cells, store, name)
}

// The masses filled with those kept under a name.
#[unsafe(no_mangle)]
pub extern "C" fn lagoon_give_back(
    cells: usize,
    volumes: &[u64],
    masses: &mut [u64],
    store: &[u64],
    name: u32,
) -> u64
    ensures { ReturnFromC cells volumes.now masses.old store.now name result masses.new }
{
    host_period::lagoon_give_back(cells, volumes, masses, store, name)
}
