// The calls on survey points. A coordinate is written as the bit pattern of its 64-bit float.
#![tactic(auto)]

use calls_arguments::parts::number;
use calls_arguments::show;
use survey::Stage;
use survey_points::{Face, Point};

// The value of a pattern's sign bit.
const SIGN: u64 = 9223372036854775808;

// The pattern of an infinity; one above it, but for the sign, is not a number.
const INFINITE: u64 = 9218868437227405312;

// Every pattern of a not-a-number stands for the same value.
fn float_of(pattern: u64) -> f64 {
    if pattern % SIGN > INFINITE {
        return 0.0 / 0.0;
    }
    f64::from_bits(pattern)
}

fn show_float(rt: &HostRuntime, v: f64) {
    if v != v {
        show::word(rt, b" nan");
        return;
    }
    show::number(rt, f64::to_bits(v));
}

fn point(x: usize, y: usize) -> Point {
    Point {
        x: float_of(x as u64),
        y: float_of(y as u64),
    }
}

fn face(words: &[u64]) -> Face {
    Face {
        end1: point(number(words, 0), number(words, 1)),
        end2: point(number(words, 2), number(words, 3)),
        centre1: point(number(words, 4), number(words, 5)),
        centre2: point(number(words, 6), number(words, 7)),
    }
}

// The ratio, the place and the value of a coordinate, or that a + b is 0.
pub fn middle_stage(rt: &HostRuntime, words: &[u64]) {
    show::word(rt, b"middle_stage:");
    let stage = survey::middle_stage(face(words));
    match stage {
        Stage::Ratio(r) => {
            show::word(rt, b" accepted");
            show_float(rt, r);
        }
        Stage::Bad(c) => {
            show::word(rt, b" bad");
            show::number(rt, c.place);
            show_float(rt, c.value);
        }
        Stage::Nothing => show::word(rt, b" nothing"),
    }
}

pub fn face_share(rt: &HostRuntime, words: &[u64]) {
    show::word(rt, b"face_share:");
    calls_answers::share(rt, survey::face_share(face(words)));
}
