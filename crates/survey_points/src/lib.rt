// A surveyed face of document 02's S-7: its coordinates, and how far its two centres lie from it. Each operation on floats is rounded once, none is fused.
#![tactic(auto)]

ghost use Rattle.std.specs.Prelude.{◌≡◌};
ghost use Rattle.survey_points.specs.Points.{size_of, way, middle_of, dot, normal, first_side, second_side, coordinates, allowed};

// Largest size of a coordinate.
pub const MAX_COORDINATE: f64 = 1000000.0;

// Coordinates of a face's four points.
pub const COORDINATES: usize = 8;

// A survey point, in plane coordinates.
#[derive(Clone, Copy)]
pub struct Point {
    pub x: f64,
    pub y: f64,
}

// What a face is surveyed by: its two ends and the centres of its two cells.
#[derive(Clone, Copy)]
pub struct Face {
    pub end1: Point,
    pub end2: Point,
    pub centre1: Point,
    pub centre2: Point,
}

// The size of a number; that of -0.0 is 0.0.
fn size_of(v: f64) -> f64
    ensures { result ≡ size_of v }
{
    if v < 0.0 {
        return -v;
    }
    if v == 0.0 {
        return 0.0;
    }
    v
}

// The way from one point to another.
fn way_to(p: Point, q: Point) -> Point
    ensures { result ≡ way p q }
{
    Point {
        x: q.x - p.x,
        y: q.y - p.y,
    }
}

// Half the sum of two points.
fn middle_of(p: Point, q: Point) -> Point
    ensures { result ≡ middle_of p q }
{
    Point {
        x: (p.x + q.x) * 0.5,
        y: (p.y + q.y) * 0.5,
    }
}

// A product sum, the x term first.
fn dot_of(p: Point, q: Point) -> f64
    ensures { result ≡ dot p q }
{
    p.x * q.x + p.y * q.y
}

// The normal of a face with these ends.
fn normal_of(p: Point, q: Point) -> Point
    ensures { result ≡ normal p q }
{
    Point {
        x: q.y - p.y,
        y: p.x - q.x,
    }
}

// a, on the side of the first centre.
pub fn first_side(face: Face) -> f64
    ensures { result ≡ first_side face }
{
    let m = middle_of(face.end1, face.end2);
    size_of(dot_of(normal_of(face.end1, face.end2), way_to(face.centre1, m)))
}

// b, on the side of the second.
pub fn second_side(face: Face) -> f64
    ensures { result ≡ second_side face }
{
    let m = middle_of(face.end1, face.end2);
    size_of(dot_of(normal_of(face.end1, face.end2), way_to(m, face.centre2)))
}

// One coordinate: finite, and of size within the ceiling.
pub fn is_allowed(v: f64) -> bool
    ensures { result ≡ allowed v }
{
    if v <= MAX_COORDINATE {
        return -MAX_COORDINATE <= v;
    }
    false
}

// The eight coordinates in the order given, x before y.
pub fn coordinates_of(face: Face) -> [f64; COORDINATES]
    ensures { result ≡ coordinates face }
{
    [
        face.end1.x,
        face.end1.y,
        face.end2.x,
        face.end2.y,
        face.centre1.x,
        face.centre1.y,
        face.centre2.x,
        face.centre2.y,
    ]
}
