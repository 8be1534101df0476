// The four entries of a cell in the table lent as work, and what the passes do with them.
#![tactic(auto)]

ghost use Rattle.std.specs.Prelude.{◌≡◌, ◌<◌, ◌+◌, ◌*◌, min, max, length};
ghost use Rattle.lists.specs.Table.{table};
ghost use Rattle.model.specs.Mesh.{max_cells};
ghost use Rattle.step_cell.specs.Work.{of_cell, cell_filled, widened, allowances_of, CellAsks};

// In passes 1 and 2: the cell's concentration, and the least and the greatest in its neighbourhood.
pub const Q: usize = 0;

pub const LO: usize = 1;

pub const HI: usize = 2;

// From pass 3 on: P, the sum of corrections that enter, over low-order q; what the cell may lose and gain; the sum of those that leave.
pub const P: usize = 0;

pub const L: usize = 1;

pub const G: usize = 2;

pub const N: usize = 3;

// Low-order q is below this: so P stands over it in one entry, as a multiple of this.
pub const OVER_Q: u64 = 1048576;

pub fn least_of(a: u64, b: u64) -> u64
    ensures { result ≡ min a b }
{
    if a < b { a } else { b }
}

pub fn greatest_of(a: u64, b: u64) -> u64
    ensures { result ≡ max a b }
{
    if a < b { b } else { a }
}

// The four entries of a cell written.
pub fn fill(work: &mut [u64], c: usize, p: u64, l: u64, g: u64, n: u64)
    requires { (4 * c + 3 < length work.old) × (c < max_cells) }
    ensures { work.new ≡ cell_filled work.old c p l g n }
{
    let at = 4 * c;
    work[at + P] = p;
    work[at + L] = l;
    work[at + G] = g;
    work[at + N] = n;
}

// Cell c meets the concentration q: its least and greatest are widened.
pub fn widen(work: &mut [u64], c: usize, q: u64)
    requires { (4 * c + 3 < length work.old) × (c < max_cells) }
    ensures { work.new ≡ widened work.old c q }
{
    let at = 4 * c;
    let least = at + LO;
    let greatest = at + HI;
    let lo = least_of(work[least], q);
    let hi = greatest_of(work[greatest], q);
    work[least] = lo;
    work[greatest] = hi;
}

// Low-order q of a cell, and what it may lose and gain, from its bounds and its low-order mass; the sums of corrections start at 0.
pub fn allowance_at(work: &mut [u64], c: usize, volume: u64, low: u64)
    requires c_in_bounds { (4 * c + 3 < length work.old) × (c < max_cells) }
    requires cell_asks { CellAsks volume low (of_cell work.old c 1) (of_cell work.old c 2) }
    ensures { work.new ≡ allowances_of work.old c volume low }
{
    let at = 4 * c;
    let loss = low - volume * work[at + LO];
    let gain = volume * work[at + HI] + volume - 1 - low;
    let q = low / volume;
    fill(work, c, q, loss, gain, 0);
}

// All entries 0.
pub fn clear(work: &mut [u64])
    ensures { work.new ≡ table (length work.old) (λ i. 0) }
{
    work.fill(0);
}
