// The entries of a store, written: a field put after all others, or taken out.
#![tactic(auto)]

ghost use Rattle.std.specs.Prelude.{◌≡◌, true, [], ◌∷◌, ◌++◌, suc, ◌+◌, ◌≤◌, ◌<◌, ◌^◌, length, get_or, take as front, replicate};
ghost use Rattle.lists.specs.Table.{over};
ghost use Rattle.model.specs.Mesh.{max_cells};
ghost use Rattle.store_kept.specs.Store.{count, used as used_of, fields_in, store_of, is_kept, without, kept_field};
ghost use Rattle.store_entries.specs.Moved.{moved_down};

use store_kept::{before, used};

// The first entries of a table, filled from another one by one: copied at once, as `lists::copy` does, the calls from C would ask a host for
// memmove, and the library asks for memcpy and memset alone.
pub fn copy(from: &[u64], to: &mut [u64])
    requires { length from.now ≤ length to.old }
    ensures { to.new ≡ over from.now to.old }
{
    for i in 0..from.len() {
        to[i] = from[i];
    }
}

// A field at the front of a part of a store.
fn write_field(cells: usize, masses: &[u64], name: u64, part: &mut [u64])
    requires { (cells ≤ length masses.now) × (cells < length part.old) }
    ensures { part.new ≡ over (name ∷ front cells masses.now) part.old }
{
    copy(&masses[..cells], &mut part[1..]);
    part[0] = name;
}

// A field after all others.
pub fn put_field(cells: usize, masses: &[u64], store: &mut [u64], name: u64)
    requires { (cells ≤ max_cells) × (cells ≤ length masses.now) × (used_of cells (suc (count store.old)) ≤ length store.old) }
    ensures { store.new ≡ over
        (store_of (fields_in cells store.old ++ (kept_field cells masses.now name ∷ [])))
        store.old }
{
    let n = store[0] as usize;
    let at = used(cells, n);
    write_field(cells, masses, name, &mut store[at..]);
    store[0] = (n + 1) as u64;
}

// What freed entries hold.
const FREED: u64 = 0;

// The entry that stands n further on; past the end, what freed entries hold.
fn further(part: &[u64], i: usize, n: usize) -> u64
    requires { n + i < 2 ^ 64 }
    ensures { result ≡ get_or part.now (n + i) 0 }
{
    let at = n + i;
    if at < part.len() {
        return part[at];
    }
    FREED
}

// Closes a gap of n entries at the front of a part and clears as many at its end.
fn move_down(n: usize, part: &mut [u64])
    requires { n + length part.old < 2 ^ 64 }
    ensures { part.new ≡ moved_down n part.old }
{
    for i in 0..part.len() {
        part[i] = further(part, i, n);
    }
}

// The first field of a name goes; later ones move down, and the freed entries become 0.
pub fn take_field(cells: usize, store: &mut [u64], name: u64)
    requires { (cells ≤ max_cells) × (used_of cells (count store.old) ≤ length store.old) × (is_kept name (fields_in cells store.old) ≡ true) }
    ensures { store.new ≡ over
        (store_of (without name (fields_in cells store.old)) ++ replicate (cells + 1) 0)
        store.old }
{
    let n = store[0] as usize;
    let i = before(cells, store, name);
    let at = used(cells, i);
    let end = used(cells, n);
    move_down(cells + 1, &mut store[at..end]);
    store[0] = (n - 1) as u64;
}
