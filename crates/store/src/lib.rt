// Named states to come back to, of document 02's S-4: fields of one mesh, kept in a lent store under names.
#![tactic(auto)]

ghost use Rattle.std.specs.Prelude.{◌≡◌};
ghost use Rattle.model.specs.Answers.{said};
ghost use Rattle.store.specs.Calls.{opened_verdict, keep_verdict, KeepPromise, DropPromise, ReturnPromise};

use model::needs::long;
use model::{Refusal, positions};

// Causes 1, 2 and 3 of a call that is lent cells, volumes, masses and store.
fn opened(cells: usize, volumes: &[u64], masses: &[u64], store: &[u64]) -> Result<(), Refusal>
    ensures { said result ≡ opened_verdict cells volumes.now masses.now store.now }
{
    let none = &volumes[..0];
    check_lent::field_lent(cells, 0, volumes, none, none, none, none, masses)?;
    long(positions::STORE, 1, store.len())?;
    check_mesh::values(cells, 0, volumes, none, none, none, none, model::CEILING)
}

// Whether a field may be kept: 1, 2, 3, 6 of its masses, and 13, 15 and 16 of the store.
fn may_keep(
    cells: usize,
    volumes: &[u64],
    masses: &[u64],
    store: &[u64],
    name: u64,
) -> Result<(), Refusal>
    ensures { said result ≡ keep_verdict cells volumes.now masses.now store.now name }
{
    opened(cells, volumes, masses, store)?;
    checks::field::values(cells, volumes, masses)?;
    store_kept::is_new(cells, store, name)
}

// Keeps a field under a new name, after all others.
pub fn keep(
    cells: usize,
    volumes: &[u64],
    masses: &[u64],
    store: &mut [u64],
    name: u64,
) -> Result<(), Refusal>
    ensures { KeepPromise cells volumes.now masses.now store.old name result store.new }
{
    may_keep(cells, volumes, masses, store, name)?;
    store_entries::put_field(cells, masses, store, name);
    Ok(())
}

// Drops the field of a name, the first where a broken store has several.
pub fn drop(cells: usize, store: &mut [u64], name: u64) -> Result<(), Refusal>
    ensures { DropPromise cells store.old name result store.new }
{
    check_lent::counts_within(model::MAX_CELLS, model::MAX_FACES, cells, 0)?;
    long(positions::STORE, 1, store.len())?;
    store_kept::is_kept(cells, store, name)?;
    store_entries::take_field(cells, store, name);
    Ok(())
}

// Fills the masses with those kept under a name, the first where a broken store has several.
pub fn give_back(
    cells: usize,
    volumes: &[u64],
    masses: &mut [u64],
    store: &[u64],
    name: u64,
) -> Result<(), Refusal>
    ensures { ReturnPromise cells volumes.now masses.old store.now name result masses.new }
{
    opened(cells, volumes, masses, store)?;
    store_kept::is_kept(cells, store, name)?;
    let at = store_kept::masses_of(cells, store, name);
    let end = at + cells;
    let kept = &store[at..end];
    checks::field::values(cells, volumes, kept)?;
    store_entries::copy(kept, masses);
    Ok(())
}
