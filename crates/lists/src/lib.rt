// Definitions about lists and sums, which the other crates share, and their laws; and what code does with any table.
#![tactic(auto)]

ghost use Rattle.std.specs.Prelude.{◌≡◌, ◌<◌, ◌≤◌, ◌+◌, ◌^◌, min, length, get_or, set};
ghost use Rattle.lists.specs.Table.{over};

// The first entries of a table, filled from another.
#[tactic(auto, unfolding(crate::specs::Table::over))]
pub fn copy(from: &[u64], to: &mut [u64])
    requires { length from.now ≤ length to.old }
    ensures { to.new ≡ over from.now to.old }
{
    to[..from.len()].copy_from_slice(from);
}

// The lesser of two.
pub fn least(a: usize, b: usize) -> usize
    ensures { result ≡ min a b }
{
    if a < b { a } else { b }
}

// An amount added to an entry of a table.
pub fn raise(xs: &mut [u64], at: usize, amount: u64)
    requires { (at < length xs.old) × (get_or xs.old at 0 + amount < 2 ^ 64) }
    ensures { xs.new ≡ set xs.old at (get_or xs.old at 0 + amount) }
{
    xs[at] = xs[at] + amount;
}
