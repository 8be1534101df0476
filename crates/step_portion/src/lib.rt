// Document 02, S-10: the proportional part a·G/P for all 64-bit numbers, also where typeof.a.G takes more bits than a number has.
#![tactic(auto)]

ghost use Rattle.std.specs.Prelude.{◌≡◌, ◌<◌, ◌+◌, ◌*◌, ◌^◌};
ghost use Rattle.model.specs.Step.{portion as portion_of};

// Below this two numbers have a product of 64 bits.
const HALF_WIDTH: u64 = 4294967296;

const LARGEST: u64 = 18446744073709551615;

// A number divided by p: how often p goes into it, and what is left.
#[derive(Clone, Copy)]
struct Divided {
    quotient: u64,
    rest: u64,
}

// Twice the number. That p goes into twice the rest is seen without doubling it.
fn doubled(d: Divided, p: u64) -> Divided
    requires { (d.rest < p) × (d.quotient < 2 ^ 63) }
    ensures { (result.quotient * p + result.rest ≡ 2 * (d.quotient * p + d.rest)) × (result.rest < p) }
{
    let missing = p - d.rest;
    if missing <= d.rest {
        return Divided {
            quotient: 2 * d.quotient + 1,
            rest: d.rest - missing,
        };
    }
    Divided {
        quotient: 2 * d.quotient,
        rest: 2 * d.rest,
    }
}

// The number and g more.
fn increased(d: Divided, g: u64, p: u64) -> Divided
    requires { (d.rest < p) × (g < p) × (d.quotient + 1 < 2 ^ 64) }
    ensures { (result.quotient * p + result.rest ≡ d.quotient * p + d.rest + g) × (result.rest < p) }
{
    let missing = p - g;
    if missing <= d.rest {
        return Divided {
            quotient: d.quotient + 1,
            rest: d.rest - missing,
        };
    }
    Divided {
        quotient: d.quotient,
        rest: d.rest + g,
    }
}

// a·g divided by p: at once where a is at most `few`, else half of a is taken first.
fn by_halves(a: u64, g: u64, p: u64, few: u64) -> Divided
    requires { (g < p) × (few * g < 2 ^ 64) }
    ensures { (result.quotient * p + result.rest ≡ a * g) × (result.rest < p) }
{
    if a <= few {
        return Divided {
            quotient: a * g / p,
            rest: a * g % p,
        };
    }
    let twice = doubled(by_halves(a / 2, g, p, few), p);
    if a % 2 == 0 {
        return twice;
    }
    increased(twice, g, p)
}

// A number of which so many times g surely fits.
fn few_of(g: u64) -> u64
    requires { g + 1 < 2 ^ 64 }
    ensures { result * g < 2 ^ 64 }
{
    if g < HALF_WIDTH {
        return HALF_WIDTH;
    }
    LARGEST / (g + 1)
}

// a·g/p rounded down, or a where g is enough.
pub fn portion(a: u64, g: u64, p: u64) -> u64
    ensures { result ≡ portion_of a g p }
{
    if p <= g {
        return a;
    }
    let few = few_of(g);
    if a <= few {
        return a * g / p;
    }
    let whole = by_halves(a, g, p, few);
    whole.quotient
}
