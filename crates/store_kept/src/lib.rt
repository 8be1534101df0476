// The names of a store: causes 13, 15, 16 and 17, and where a field stands.
#![tactic(auto)]

ghost use Rattle.std.specs.Prelude.{◌≡◌, true, ◌&&◌, ◌+◌, ◌≤◌, ◌<◌, ◌^◌, length, drop as rest, take as front};
ghost use Rattle.model.specs.Mesh.{max_cells};
ghost use Rattle.model.specs.Causes.{◌and_then◌};
ghost use Rattle.model.specs.Answers.{said};
ghost use Rattle.store_kept.specs.Store.{count, used as used_of, fields_in, is_kept, held_under};
ghost use Rattle.store_kept.specs.Found.{fields_before as before_of};
ghost use Rattle.store_kept.specs.Tests.{name_fits, count_fits, count_good, name_new, room_left, name_kept};

use model::needs::{between, need};
use model::{Cause, Refusal};

// The largest name; the smallest is 1.
const MAX_NAME: u64 = 65535;

// How many entries n fields take, with the one for the count.
pub fn used(cells: usize, n: usize) -> usize
    requires { (cells ≤ max_cells) × (used_of cells n < 2 ^ 64) }
    ensures { result ≡ used_of cells n }
{
    1 + n * (cells + 1)
}

// Whether the table holds as many fields as its count says, without a product of lent numbers.
fn count_fits(cells: usize, store: &[u64]) -> bool
    requires { (1 ≤ length store.now) × (cells ≤ max_cells) }
    ensures { result ≡ count_fits cells store.now }
{
    let most = (store.len() - 1) / (cells + 1);
    store[0] <= most as u64
}

// How many fields stand before the first of a name: all of them, where none has it.
pub fn before(cells: usize, store: &[u64], name: u64) -> usize
    requires { (cells ≤ max_cells) × (used_of cells (count store.now) ≤ length store.now) }
    ensures { result ≡ before_of name (fields_in cells store.now) }
{
    let n = store[0] as usize;
    for i in 0..n {
        if store[used(cells, i)] == name {
            return i;
        }
    }
    n
}

fn name_fits(name: u64, good: bool) -> bool
    ensures { result ≡ (name_fits name && good) }
{
    if between(1, MAX_NAME, name) {
        return good;
    }
    false
}

// Causes 13, 15 and 16.
pub fn is_new(cells: usize, store: &[u64], name: u64) -> Result<(), Refusal>
    requires { (1 ≤ length store.now) × (cells ≤ max_cells) }
    ensures { said result ≡ (count_good cells store.now and_then name_new cells store.now name
        and_then room_left cells store.now name) }
{
    need(Cause::Head, 1, count_fits(cells, store))?;
    let n = store[0] as usize;
    let left = store.len() - used(cells, n);
    need(
        Cause::Name,
        name,
        name_fits(name, before(cells, store, name) == n),
    )?;
    need(Cause::Room, name, cells < left)
}

// Causes 13 and 17.
pub fn is_kept(cells: usize, store: &[u64], name: u64) -> Result<(), Refusal>
    requires { (1 ≤ length store.now) × (cells ≤ max_cells) }
    ensures { said result ≡ (count_good cells store.now and_then name_kept cells store.now name) }
{
    need(Cause::Head, 1, count_fits(cells, store))?;
    let n = store[0] as usize;
    need(
        Cause::Unkept,
        name,
        name_fits(name, before(cells, store, name) < n),
    )
}

// Where the masses kept under a name begin.
pub fn masses_of(cells: usize, store: &[u64], name: u64) -> usize
    requires { (cells ≤ max_cells) × (used_of cells (count store.now) ≤ length store.now) × (is_kept name (fields_in cells store.now) ≡ true) }
    ensures { (result + cells ≤ length store.now)
        × (front cells (rest result store.now) ≡ held_under name (fields_in cells store.now)) }
{
    let i = before(cells, store, name);
    used(cells, i) + 1
}
