// The correction of a face, stage 2, in one number.
ghost use Rattle.std.specs.Prelude.{◌≡◌, cond, ◌≤◌, ◌-◌, ◌*◌, ◌/◌};
ghost use Rattle.signed.specs.Sign.{is_negative, size as size_of, with_sign};
ghost use Rattle.model.specs.Mesh.{max_share, max_reach, max_concentration};
ghost use Rattle.model.specs.Accepted.{max_carried};
ghost use Rattle.step_face.specs.Correction.{decoded, product_of, correction_of};

// The whole way between centres, in 1/256.
const WAY: u64 = 256;

const HALF: u64 = 128;

// In one number a correction's size stands over its sign, as a multiple of this. By 2 it would be joined to the sign by a double shift, which
// is slow.
pub const OVER_SIGN: u64 = 4;

// The end of the way from which the share is told: the first cell, or with a flux below 0 the second.
fn end_of_way(negative: bool) -> u64
    ensures { result ≡ cond negative 256 0 }
{
    if negative { WAY } else { 0 }
}

// t, the share of the way between centres that lies upwind, in 1/256, with the sign of the flux: s, or s - 256.
pub fn upwind_share(flux: i64, share: u64) -> i64
    requires { share ≤ max_share }
    ensures { result ≡ with_sign (is_negative flux) (cond (is_negative flux) (256 - share) share) }
{
    let end = end_of_way(signed::is_negative(flux));
    signed::difference(share, end)
}

// U·d·(typeof.t.K - 128·|U|). A flux below 0 turns d and t alike, so that the product is that of b - a, and of t and U as they are signed.
pub fn correction_product(flux: i64, a: u64, b: u64, share: u64, reach: u64) -> i64
    requires { (size_of flux ≤ reach) × (a ≤ max_concentration) × (b ≤ max_concentration) × (share ≤ max_share) × (reach ≤ max_reach) }
    ensures { (result ≡ product_of flux a b share reach) × (size_of result ≤ 256 * reach * max_carried) }
{
    let way = signed::times(upwind_share(flux, share), reach);
    let half = signed::times(flux, HALF);
    let rest = signed::subtract(way, half);
    let moved = signed::multiply(flux, signed::difference(b, a));
    signed::multiply(moved, rest)
}

// The size of a correction. By 256 first: what is left is smaller, and divides faster.
pub fn correction_size(product: i64, reach: u64) -> u64
    requires { 1 ≤ reach }
    ensures { result ≡ size_of product / (256 * reach) }
{
    signed::size(product) / WAY / reach
}

// A signed amount in one number.
pub fn code(negative: bool, amount: u64) -> u64
    requires { amount ≤ max_carried }
    ensures { decoded result ≡ with_sign negative amount }
{
    if negative {
        OVER_SIGN * amount + 1
    } else {
        OVER_SIGN * amount
    }
}

// The correction of an interior face, in one number.
pub fn correction_code(flux: i64, a: u64, b: u64, share: u64, reach: u64) -> u64
    requires { (size_of flux ≤ reach) × (a ≤ max_concentration) × (b ≤ max_concentration) × (share ≤ max_share) × (1 ≤ reach) × (reach ≤ max_reach) }
    ensures { decoded result ≡ correction_of flux a b share reach }
{
    let product = correction_product(flux, a, b, share, reach);
    let amount = correction_size(product, reach);
    code(signed::is_negative(product), amount)
}
