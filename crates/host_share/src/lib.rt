// A share from survey points, and the version, for a host program in C.
#![tactic(auto)]

ghost use Rattle.std.specs.Prelude.{◌≡◌, ◌<◌, ◌^◌};
ghost use Rattle.survey.specs.Survey.{share_by};
ghost use Rattle.host_answer.specs.Number.{number_of};
ghost use Rattle.host_answer.specs.Found.{alone, Answered};
ghost use Rattle.host_share.specs.Share.{face_from, ShareFromC, version};

use host_numbers::{fill1, number_of};
use model::Refusal;
use survey_points::{Face, Point};

// The version's three numbers: the file VERSION has them, and tests/host.sh compares.
const MAJOR: u64 = 2;

const MINOR: u64 = 8;

const PATCH: u64 = 1;

// The answer of a share: found is the share.
fn answered(answer: Result<u64, Refusal>, found: &mut [u64]) -> u64
    requires { number_of (share_by answer) < 2 ^ 64 }
    ensures { Answered alone (share_by answer) found.old result found.new }
{
    match answer {
        Ok(share) => {
            fill1(found, share);
            0
        }
        Err(refusal) => number_of(refusal),
    }
}

// A face by its eight coordinates.
fn face_from(
    x1: f64,
    y1: f64,
    x2: f64,
    y2: f64,
    first_x: f64,
    first_y: f64,
    second_x: f64,
    second_y: f64,
) -> Face
    ensures { result ≡ face_from x1 y1 x2 y2 first_x first_y second_x second_y }
{
    let end1 = Point { x: x1, y: y1 };
    let end2 = Point { x: x2, y: y2 };
    let centre1 = Point {
        x: first_x,
        y: first_y,
    };
    let centre2 = Point {
        x: second_x,
        y: second_y,
    };
    Face {
        end1,
        end2,
        centre1,
        centre2,
    }
}

// Document 02's S-7: the share of a face from its two ends and the centres of its first and second cell.
#[unsafe(no_mangle)]
pub extern "C" fn lagoon_share(
    x1: f64,
    y1: f64,
    x2: f64,
    y2: f64,
    first_x: f64,
    first_y: f64,
    second_x: f64,
    second_y: f64,
    found: &mut [u64],
) -> u64
    ensures { ShareFromC (face_from x1 y1 x2 y2 first_x first_y second_x second_y) found.old result found.new }
{
    let face = face_from(x1, y1, x2, y2, first_x, first_y, second_x, second_y);
    let answer = survey::face_share(face);
    answered(answer, found)
}

// The library's version as one number.
#[unsafe(no_mangle)]
pub extern "C" fn lagoon_version() -> u64
    ensures { result ≡ version 2 8 1 }
{
    MAJOR * 1000000 + MINOR * 1000 + PATCH
}
