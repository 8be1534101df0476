// Shares from survey points, document 02's S-7. Each operation on floats is rounded once, none is fused.
#![tactic(auto)]

ghost use Rattle.std.specs.Prelude.{◌≡◌, true, false, ◌≤◌};
ghost use Rattle.model.specs.Causes.{refused, fine};
ghost use Rattle.model.specs.Answers.{number};
ghost use Rattle.survey.specs.Survey.{not_above, stage_said, found_after, found, share as share_is, share_of, share_by, face_share};

use model::{Cause, Refusal};
use survey_points::{Face, coordinates_of, first_side, is_allowed, second_side};

// 1 / 256, the unit of a share.
const PART: f64 = 0.00390625;

// A coordinate that is refused, and its place: 0 to 7 in the order of the points, x before y.
#[derive(Clone, Copy)]
pub struct Coordinate {
    pub place: u64,
    pub value: f64,
}

// The middle stage: the ratio a / (a + b), the first coordinate that is not allowed, or that a + b is 0.
#[derive(Clone, Copy)]
pub enum Stage {
    Ratio(f64),
    Bad(Coordinate),
    Nothing,
}

// The ratio of a face whose coordinates are allowed, or that a + b is 0.
fn ratio_of(face: Face) -> Stage
    ensures { stage_said result ≡ found_after face fine }
{
    let a = first_side(face);
    let total = a + second_side(face);
    if total == 0.0 {
        return Stage::Nothing;
    }
    Stage::Ratio(a / total)
}

// The middle stage: the coordinates are looked at in the order of their places.
pub fn middle_stage(face: Face) -> Stage
    ensures { stage_said result ≡ found face }
{
    let values = coordinates_of(face);
    for (i, &value) in values.iter().enumerate() {
        if !is_allowed(value) {
            return Stage::Bad(Coordinate {
                place: i as u64,
                value: value,
            });
        }
    }
    ratio_of(face)
}

// Whether k / 256 is not above a ratio; k / 256 is a float without rounding.
fn is_not_above(k: u64, ratio: f64) -> bool
    requires { (1 ≤ k) × (k ≤ 256) }
    ensures { result ≡ not_above k ratio }
{
    (k as f64) * PART <= ratio
}

// The largest k with k / 256 not above a ratio, which is below 1.
fn share_of(ratio: f64) -> u64
    requires { (not_above 1 ratio ≡ true) × (not_above 256 ratio ≡ false) }
    ensures { result ≡ share_is ratio }
{
    for k in 1..255 {
        if !is_not_above(k + 1, ratio) {
            return k;
        }
    }
    255
}

fn refusal(cause: Cause, place: u64) -> Result<u64, Refusal>
    ensures { share_by result ≡ refused (number cause) place }
{
    Err(Refusal {
        cause: cause,
        place: place,
    })
}

// The share of a ratio, or 20 where it is below 1/256 or not below 1.
fn share_or_refusal(ratio: f64) -> Result<u64, Refusal>
    ensures { share_by result ≡ share_of ratio }
{
    if !is_not_above(1, ratio) {
        return refusal(Cause::Ratio, 0);
    }
    if is_not_above(256, ratio) {
        return refusal(Cause::Ratio, 0);
    }
    Ok(share_of(ratio))
}

// The share of a surveyed face: causes 19 and 20, else 1 to 255.
pub fn face_share(face: Face) -> Result<u64, Refusal>
    ensures { share_by result ≡ face_share face }
{
    let stage = middle_stage(face);
    match stage {
        Stage::Ratio(r) => share_or_refusal(r),
        Stage::Bad(c) => refusal(Cause::Coordinate, c.place),
        Stage::Nothing => refusal(Cause::Ratio, 0),
    }
}
