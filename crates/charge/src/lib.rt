// Document 02's S-13: a period total charged by bands, with the remainder that the last charge left.
#![tactic(auto)]

ghost use Rattle.std.specs.Prelude.{◌≡◌, ◌+◌, ◌-◌, ◌*◌, ◌≤◌, ◌<◌, min, true, not, ◌&&◌, ◌||◌, eqb, leb, ltb, length};
ghost use Rattle.model.specs.Causes.{fine, in_turn, each};
ghost use Rattle.model.specs.Answers.{said};
ghost use Rattle.charge.specs.Charge.{last_end, max_price, charge_sum, band_good};
ghost use Rattle.charge.specs.Answers.{bill_causes, charge_verdict, ChargeIs};

use model::needs::{between, long, need};
use model::{Cause, Refusal, positions};

// Most bands of a charge.
pub const MAX_BANDS: u64 = 8;

// The end of the last band.
pub const LAST_END: u64 = 1099511627776;

// The largest price, and the mass units that a price is for.
pub const MAX_PRICE: u64 = 1000000;

pub const PRICE_UNITS: u64 = 1000000;

// Whole cents, and what is left of the division.
#[derive(Clone, Copy)]
pub struct Billed {
    pub cents: u64,
    pub remainder: u64,
}

// One band: where it begins and ends, its price, and whether it is the last.
fn band_fits(begin: u64, end: u64, price: u64, last: bool) -> bool
    ensures { result ≡ (ltb begin end && leb price max_price && (not last || eqb end last_end)) }
{
    if end <= begin {
        return false;
    }
    if price > MAX_PRICE {
        return false;
    }
    if last {
        return end == LAST_END;
    }
    true
}

// The bands in their order: the lowest that 25 refuses.
fn bands_good(bands: usize, ends: &[u64], prices: &[u64]) -> Result<(), Refusal>
    requires { (bands ≤ length ends.now) × (bands ≤ length prices.now) }
    ensures { said result ≡ each 25 bands (band_good ends.now prices.now bands) }
{
    let mut begin = 0;
    for i in 0..bands {
        let end = ends[i];
        if !band_fits(begin, end, prices[i], i + 1 == bands) {
            return Err(Refusal {
                cause: Cause::Bands,
                place: i as u64,
            });
        }
        begin = end;
    }
    Ok(())
}

fn lesser(a: u64, b: u64) -> u64
    ensures { result ≡ min a b }
{
    if a < b { a } else { b }
}

// So much more by what lies between two bounds, at a price.
fn more(sum: u64, from: u64, to: u64, price: u64) -> u64
    requires { (from ≤ to) × (to ≤ last_end) × (price ≤ max_price) × (sum ≤ from * max_price) }
    ensures { (result ≡ sum + (to - from) * price) × (result ≤ to * max_price) }
{
    sum + (to - from) * price
}

// The total charged band by band, of bands that are good.
fn charged(total: u64, bands: usize, ends: &[u64], prices: &[u64]) -> u64
    requires bands_in_bounds { (bands ≤ length ends.now) × (bands ≤ length prices.now) × (total ≤ last_end) }
    requires bands_value { each 25 bands (band_good ends.now prices.now bands) ≡ fine }
    ensures { (result ≡ charge_sum ends.now prices.now bands total) × (result ≤ last_end * max_price) }
{
    let mut sum = 0;
    let mut from = 0;
    for i in 0..bands {
        let to = lesser(total, ends[i]);
        sum = more(sum, from, to, prices[i]);
        from = to;
    }
    sum
}

// What is known before any band is read.
fn lent(bands: usize, ends: usize, prices: usize, remainder: u64) -> Result<(), Refusal>
    ensures { said result ≡ in_turn (bill_causes bands ends prices remainder) }
{
    need(Cause::Bands, 0, between(1, MAX_BANDS, bands as u64))?;
    long(positions::ENDS, bands, ends)?;
    long(positions::PRICES, bands, prices)?;
    need(Cause::Bands, 0, remainder < PRICE_UNITS)
}

// What charging is refused for.
fn judge(
    total: u64,
    bands: usize,
    ends: &[u64],
    prices: &[u64],
    remainder: u64,
) -> Result<(), Refusal>
    ensures { said result ≡ charge_verdict ends.now prices.now total bands remainder }
{
    lent(bands, ends.len(), prices.len(), remainder)?;
    bands_good(bands, ends, prices)?;
    need(Cause::Period, 0, total <= LAST_END)
}

// A total charged: causes 25 (the number of bands), 2 (ends, prices), 25 (the remainder, the bands) and 26, else cents and the new remainder.
pub fn charge(
    total: u64,
    bands: usize,
    ends: &[u64],
    prices: &[u64],
    remainder: u64,
) -> Result<Billed, Refusal>
    ensures { ChargeIs ends.now prices.now total bands remainder result }
{
    judge(total, bands, ends, prices, remainder)?;
    let sum = charged(total, bands, ends, prices) + remainder;
    Ok(Billed {
        cents: sum / PRICE_UNITS,
        remainder: sum % PRICE_UNITS,
    })
}
