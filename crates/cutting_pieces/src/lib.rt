// Document 02, S-12: the tables of a part's cells, each filled by a loop of its own from those of the whole; and which faces a part has.
#![tactic(auto)]

pub mod cells;

ghost use Rattle.std.specs.Prelude.{◌≡◌, ◌≢◌, true, cond, not, ◌+◌, ◌≤◌, ◌<◌, length, get_or, set};
ghost use Rattle.lists.specs.Table.{over};
ghost use Rattle.lists.specs.Marked.{count, picked};
ghost use Rattle.model.specs.Mesh.{rim};
ghost use Rattle.cutting_pieces.specs.Pieces.{has_label, touching, cutting};

use model::RIM;

// Whether a cell has the label of the part.
pub fn is_in(part: u64, labels: &[u64], cell: u64) -> bool
    requires { cell < length labels.now }
    ensures { result ≡ has_label labels.now part cell }
{
    labels[cell as usize] == part
}

// Whether a face touches the part, with its first cell or with its second.
pub fn touches(part: u64, labels: &[u64], first: u64, second: u64) -> bool
    requires { (first < length labels.now) × (second ≢ rim → second < length labels.now) }
    ensures { result ≡ touching labels.now part first second }
{
    if is_in(part, labels, first) {
        return true;
    }
    if second == RIM {
        return false;
    }
    is_in(part, labels, second)
}

// Whether a face that touches the part is one between the parts.
pub fn is_cut(part: u64, labels: &[u64], first: u64, second: u64) -> bool
    requires { (first < length labels.now) × (second ≢ rim → second < length labels.now) }
    ensures { result ≡ cutting labels.now part first second }
{
    if second == RIM {
        return false;
    }
    if is_in(part, labels, first) {
        return !is_in(part, labels, second);
    }
    true
}

// The sign of an amount, of a face that is turned or not.
pub fn flip(turns: bool, negative: bool) -> bool
    ensures { result ≡ cond turns (not negative) negative }
{
    if turns {
        return !negative;
    }
    negative
}

// An entry put at the next place where it is marked; the place after it.
pub fn keep<T: Copy>(marked: bool, at: usize, entry: T, out: &mut [T]) -> usize
    requires { marked ≡ true → at < length out.old }
    ensures { (result ≡ at + cond marked 1 0) × (out.new ≡ cond marked (set out.old at entry) out.old) }
{
    if marked {
        out[at] = entry;
        return at + 1;
    }
    at
}

// What the cells of the part have, in their old order; how many there are.
pub fn by_cell(cells: usize, part: u64, labels: &[u64], entries: &[u64], out: &mut [u64]) -> usize
    requires { (cells ≤ length labels.now) × (cells ≤ length entries.now) × (cells ≤ length out.old) }
    ensures value { result ≡ count cells (has_label labels.now part) }
    ensures out_after { out.new ≡ over (picked cells (has_label labels.now part) (λ c. get_or entries.now c 0)) out.old }
{
    let mut at = 0;
    for c in 0..cells {
        let marked = is_in(part, labels, c as u64);
        at = keep(marked, at, entries[c], out);
    }
    at
}
