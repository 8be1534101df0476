// A lagoon on a grid, as bench/yardstick.c makes it: shores in the west and the north, open sides in the east and the south.
// The large one has volumes, reaches and fluxes SCALE times as large, volumes and reaches up to the ceiling of the calls.
#![tactic(auto)]

ghost use Rattle.std.specs.Prelude.{◌≤◌, ◌<◌};
ghost use Rattle.model.specs.Mesh.{max_cells, max_faces, max_concentration, ceiling};
ghost use Rattle.bench_grid.specs.Bounds.{max_factor, max_product, max_stream, max_scaled, max_season};

use model::{CEILING, MAX_CELLS, MAX_FACES, RIM};

const SCALE: u64 = 436;

fn scaled(large: bool, value: u64) -> u64
    requires { value ≤ max_stream }
    ensures { result ≤ max_scaled }
{
    if large { SCALE * value } else { value }
}

// A volume or a reach.
fn up_to_ceiling(value: u64) -> u64
    ensures { result ≤ ceiling }
{
    if value < CEILING { value } else { CEILING }
}

// Factors up to a million: the one product of two variables.
pub fn times(a: u64, b: u64) -> u64
    requires { (a ≤ max_factor) × (b ≤ max_factor) }
    ensures { result ≤ max_product }
{
    a * b
}

fn column(c: u64, width: u64) -> u64
    requires { 1 ≤ width }
    ensures { result ≤ c }
{
    c % width
}

fn row(c: u64, width: u64) -> u64
    requires { 1 ≤ width }
    ensures { result ≤ c }
{
    c / width
}

// A triangle of period 24.
fn wave(k: u64) -> u64
    ensures { result ≤ 12 }
{
    let r = k % 24;
    if r < 12 { r } else { 24 - r }
}

// The stream function at a corner of the grid: gyres of 12 cells, and a ripple. It is 0 on the shores.
fn stream(x: u64, y: u64) -> u64
    requires { (x ≤ max_cells) × (y ≤ max_cells) }
    ensures { result ≤ max_stream }
{
    5 * times(wave(x), wave(y)) + times(37 * x, y) % 11
}

fn volume(large: bool, c: u64) -> u64
    requires { c < max_cells }
    ensures { result ≤ ceiling }
{
    up_to_ceiling(scaled(large, 150 + 29 * c % 256))
}

// Squares of 6 cells, salt and fresh in turn.
fn concentration(c: u64, x: u64, y: u64) -> u64
    requires { (c < max_cells) × (x < max_cells) × (y < max_cells) }
    ensures { result ≤ max_concentration }
{
    if (x / 6 + y / 6) % 2 == 0 {
        900000 + 7919 * c % 100000
    } else {
        4973 * c % 100000
    }
}

fn mass(large: bool, c: u64, width: u64) -> u64
    requires { (c < max_cells) × (1 ≤ width) }
{
    let q = concentration(c, column(c, width), row(c, width));
    times(volume(large, c), q) + 31 * c % 150
}

// Volumes, and the masses of the first field.
pub fn make_cells(
    large: bool,
    cells: usize,
    width: u64,
    volumes: &mut [u64; MAX_CELLS],
    field: &mut [u64; MAX_CELLS],
)
    requires { (cells ≤ max_cells) × (1 ≤ width) }
{
    for c in 0..cells {
        volumes[c] = volume(large, c as u64);
        field[c] = mass(large, c as u64, width);
    }
}

// The first cell of a face. A cell has the faces in its east and in its south.
fn first(f: u64) -> u64
    requires { f < max_faces }
    ensures { result < max_cells }
{
    f / 2
}

fn is_east(f: u64) -> bool {
    f % 2 == 0
}

// Whether a face lies on an open side.
fn is_open(f: u64, width: u64, height: u64) -> bool
    requires { (f < max_faces) × (1 ≤ width) }
{
    let c = first(f);
    if is_east(f) {
        return column(c, width) + 1 == width;
    }
    row(c, width) + 1 == height
}

fn second(f: u64, width: u64, open: bool) -> u64
    requires { (f < max_faces) × (width ≤ max_cells) }
{
    if open {
        return RIM;
    }
    if is_east(f) {
        first(f) + 1
    } else {
        first(f) + width
    }
}

fn share(f: u64, open: bool) -> u64
    requires { f < max_faces }
{
    if open { 0 } else { 64 + 53 * f % 128 }
}

fn reach(large: bool, f: u64, open: bool) -> u64
    requires { f < max_faces }
{
    if open {
        0
    } else {
        up_to_ceiling(scaled(large, 80 + 23 * f % 256))
    }
}

// The stream function at the ends of a face: its flux is the one ahead less the one behind.
fn ahead(f: u64, width: u64) -> u64
    requires { (f < max_faces) × (1 ≤ width) }
    ensures { result ≤ max_stream }
{
    let c = first(f);
    if is_east(f) {
        return stream(column(c, width) + 1, row(c, width) + 1);
    }
    stream(column(c, width), row(c, width) + 1)
}

fn behind(f: u64, width: u64) -> u64
    requires { (f < max_faces) × (1 ≤ width) }
    ensures { result ≤ max_stream }
{
    let c = first(f);
    if is_east(f) {
        return stream(column(c, width) + 1, row(c, width));
    }
    stream(column(c, width) + 1, row(c, width) + 1)
}

// The way between two numbers.
fn gap(a: u64, b: u64) -> u64
    requires { (a ≤ max_stream) × (b ≤ max_stream) }
    ensures { result ≤ max_stream }
{
    if a < b { b - a } else { a - b }
}

fn make_ends(
    large: bool,
    f: usize,
    width: u64,
    open: bool,
    firsts: &mut [u64; MAX_FACES],
    seconds: &mut [u64; MAX_FACES],
    shares: &mut [u64; MAX_FACES],
    reaches: &mut [u64; MAX_FACES],
)
    requires { (f < max_faces) × (width ≤ max_cells) }
{
    firsts[f] = first(f as u64);
    seconds[f] = second(f as u64, width, open);
    shares[f] = share(f as u64, open);
    reaches[f] = reach(large, f as u64, open);
}

fn flux(large: bool, f: u64, width: u64) -> i64
    requires { (f < max_faces) × (1 ≤ width) }
{
    let a = ahead(f, width);
    let b = behind(f, width);
    signed::with_sign(a < b, scaled(large, gap(a, b)))
}

// The faces of the mesh, and the water through them.
pub fn make_faces(
    large: bool,
    faces: usize,
    width: u64,
    height: u64,
    firsts: &mut [u64; MAX_FACES],
    seconds: &mut [u64; MAX_FACES],
    shares: &mut [u64; MAX_FACES],
    reaches: &mut [u64; MAX_FACES],
    fluxes: &mut [i64; MAX_FACES],
)
    requires { (faces ≤ max_faces) × (1 ≤ width) × (width ≤ max_cells) }
{
    for f in 0..faces {
        let open = is_open(f as u64, width, height);
        make_ends(large, f, width, open, firsts, seconds, shares, reaches);
        fluxes[f] = flux(large, f as u64, width);
    }
}

fn outside(season: u64, f: u64) -> u64
    requires { (season ≤ max_season) × (f < max_faces) }
{
    (f + season) % 5 * 250000
}

// The outside values of a season, where water comes in over the rim.
pub fn vary(
    season: u64,
    faces: usize,
    seconds: &[u64; MAX_FACES],
    fluxes: &[i64; MAX_FACES],
    outsides: &mut [u64; MAX_FACES],
)
    requires { (season ≤ max_season) × (faces ≤ max_faces) }
{
    for f in 0..faces {
        if seconds[f] == RIM {
            if signed::is_negative(fluxes[f]) {
                outsides[f] = outside(season, f as u64);
            }
        }
    }
}
