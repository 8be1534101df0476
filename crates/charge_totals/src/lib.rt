// Document 02's S-13: what a step moved outward over the rim, added to the totals of a period.
#![tactic(auto)]

ghost use Rattle.std.specs.Prelude.{◌≡◌, true, ◌+◌, ◌≤◌, ◌<◌, length};
ghost use Rattle.model.specs.Causes.{fine, in_turn, each};
ghost use Rattle.model.specs.Answers.{said};
ghost use Rattle.charge_totals.specs.Totals.{lent_causes, gain_fit, gain_at, gain_good, added_totals, AddPromise};

use model::needs::{long, need};
use model::{Cause, MAX_FACES, RIM, Refusal, positions};
use signed::{is_negative_at, size_at};

// The largest period total.
pub const MAX_TOTAL: u64 = 1099511627776;

// The place of the faces in cause 1.
const FACES_PLACE: u64 = 1;

// What a face's entry gains.
#[tactic(auto, unfolding(crate::specs::Totals::gain_at, crate::specs::Totals::gain_of))]
fn gain_at(seconds: &[u64], moved: &[i64], f: usize) -> u64
    requires { (f < length seconds.now) × (f < length moved.now) }
    ensures { result ≡ gain_at seconds.now moved.now f }
{
    if seconds[f] != RIM {
        return 0;
    }
    if is_negative_at(moved, f) {
        return 0;
    }
    size_at(moved, f)
}

// Whether an entry can gain so much. Nothing is added before it is known to fit.
#[tactic(auto, unfolding(crate::specs::Totals::gain_fit))]
fn gain_fits(entry: u64, gain: u64) -> bool
    ensures { result ≡ gain_fit entry gain }
{
    if gain == 0 {
        return true;
    }
    if entry > MAX_TOTAL {
        return false;
    }
    gain <= MAX_TOTAL - entry
}

// Cause 26.
fn gains_good(faces: usize, seconds: &[u64], moved: &[i64], totals: &[u64]) -> Result<(), Refusal>
    requires { (faces ≤ length seconds.now) × (faces ≤ length moved.now) × (faces ≤ length totals.now) }
    ensures { said result ≡ each 26 faces (gain_good seconds.now moved.now totals.now) }
{
    for f in 0..faces {
        if !gain_fits(totals[f], gain_at(seconds, moved, f)) {
            return Err(Refusal {
                cause: Cause::Period,
                place: f as u64,
            });
        }
    }
    Ok(())
}

// Causes 1 and 2: the faces, and the tables lent.
fn lent(faces: usize, seconds: usize, moved: usize, totals: usize) -> Result<(), Refusal>
    ensures { said result ≡ in_turn (lent_causes faces seconds moved totals) }
{
    need(Cause::Limits, FACES_PLACE, faces <= MAX_FACES)?;
    long(positions::SECONDS, faces, seconds)?;
    long(positions::MOVED, faces, moved)?;
    long(positions::TOTALS, faces, totals)
}

// An entry with what it gains.
#[tactic(auto, unfolding(crate::specs::Totals::gain_fit))]
fn raised(entry: u64, gain: u64) -> u64
    requires { gain_fit entry gain ≡ true }
    ensures { result ≡ entry + gain }
{
    if gain == 0 {
        return entry;
    }
    entry + gain
}

// Each entry with what it gains, of gains that all fit.
fn raise(faces: usize, seconds: &[u64], moved: &[i64], totals: &mut [u64])
    requires faces_in_bounds { (faces ≤ length seconds.now) × (faces ≤ length moved.now) × (faces ≤ length totals.old) }
    requires totals_value { each 26 faces (gain_good seconds.now moved.now totals.old) ≡ fine }
    ensures { totals.new ≡ added_totals seconds.now moved.now totals.old faces }
{
    for f in 0..faces {
        totals[f] = raised(totals[f], gain_at(seconds, moved, f));
    }
}

// A step's outward moved masses added: causes 1 (faces), 2 (seconds, moved, totals) and 26, else done.
pub fn add(faces: usize, seconds: &[u64], moved: &[i64], totals: &mut [u64]) -> Result<(), Refusal>
    ensures { AddPromise seconds.now moved.now totals.old faces result totals.new }
{
    lent(faces, seconds.len(), moved.len(), totals.len())?;
    gains_good(faces, seconds, moved, totals)?;
    raise(faces, seconds, moved, totals);
    Ok(())
}
