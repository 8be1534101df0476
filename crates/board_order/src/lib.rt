// The order of the board: two cells compared by concentration, by the part of a unit that is left, and by number.
#![tactic(auto)]

ghost use Rattle.std.specs.Prelude.{◌≡◌, ◌*◌, ◌≤◌};
ghost use Rattle.board_order.specs.Order.{max_ranked, ranked_of, comes_before};

// A cell as the order sees it. Rest and volume are narrow, so that the product of any two of them fits 64 bits.
#[derive(Clone, Copy)]
pub struct Ranked {
    pub cell: u64,
    pub q: u64,
    pub rest: u32,
    pub volume: u32,
}

// One cell as the order sees it, by one division.
pub fn ranked_of(cell: u64, volume: u64, mass: u64) -> Ranked
    requires { (1 ≤ volume) × (volume ≤ max_ranked) }
    ensures { result ≡ ranked_of cell volume mass }
{
    let q = mass / volume;
    let rest = mass - q * volume;
    Ranked {
        cell: cell,
        q: q,
        rest: rest as u32,
        volume: volume as u32,
    }
}

// A rest times the volume of another cell: rest / V of two cells is compared by two such products.
fn across(rest: u32, volume: u32) -> u64
    ensures { result ≡ rest * volume }
{
    (rest as u64) * (volume as u64)
}

// The board's order.
pub fn comes_before(a: Ranked, b: Ranked) -> bool
    ensures { result ≡ comes_before a b }
{
    if a.q != b.q {
        return b.q < a.q;
    }
    let of_a = across(a.rest, b.volume);
    let of_b = across(b.rest, a.volume);
    if of_a != of_b {
        return of_b < of_a;
    }
    a.cell < b.cell
}
