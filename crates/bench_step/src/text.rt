// Arguments in, one line out.
ghost use Rattle.std.specs.Prelude.{◌<◌, ◌≤◌};
ghost use Rattle.model.specs.Mesh.{max_cells, max_faces};
ghost use Rattle.bench_step.specs.Bounds.{max_argument, prime};

use model::{MAX_CELLS, MAX_FACES};
use std::env::Env;

// Arguments are below this.
const CEILING: u64 = 1000000000000;

const PRIME: u64 = 1000000007;

const BASE: u64 = 1000003;

fn digit(b: u8) -> u64
    ensures { result ≤ 9 }
{
    if b < 48 {
        return 0;
    }
    if b > 57 {
        return 0;
    }
    (b - 48) as u64
}

// Decimal digits as a number, of which the last twelve count.
fn number(text: &[u8]) -> u64
    ensures { result ≤ max_argument }
{
    let mut x: u64 = 0;
    for b in text {
        x = (10 * x + digit(*b)) % CEILING;
    }
    x
}

pub fn argument(rt: &HostRuntime, i: usize) -> u64
    ensures { result ≤ max_argument }
{
    let mut text = [0u8; 12];
    match rt.arg(i, &mut text) {
        Ok(n) => number(&text[..n]),
        Err(_) => 0,
    }
}

// The sum of the masses; that of a field within the limits does not wrap.
fn total(cells: usize, masses: &[u64; MAX_CELLS]) -> u64
    requires { cells ≤ max_cells }
{
    let mut sum: u64 = 0;
    for m in &masses[..cells] {
        sum = std::num::wrapping_add_u64(sum, *m);
    }
    sum
}

pub fn mixed(digest: u64, x: u64) -> u64
    requires { digest < prime }
    ensures { result < prime }
{
    (digest * BASE + x % PRIME) % PRIME
}

fn digest_masses(cells: usize, masses: &[u64; MAX_CELLS]) -> u64
    requires { cells ≤ max_cells }
    ensures { result < prime }
{
    let mut digest: u64 = 1;
    for m in &masses[..cells] {
        digest = mixed(digest, *m);
    }
    digest
}

// A signed number as one without sign.
fn coded(x: i64) -> u64 {
    let size = 2 * (signed::size(x) % PRIME);
    if signed::is_negative(x) {
        size + 1
    } else {
        size
    }
}

// The digest of the masses, and then of what moved.
fn digest(cells: usize, faces: usize, masses: &[u64; MAX_CELLS], moved: &[i64; MAX_FACES]) -> u64
    requires { (cells ≤ max_cells) × (faces ≤ max_faces) }
{
    let mut digest = digest_masses(cells, masses);
    for x in &moved[..faces] {
        digest = mixed(digest, coded(*x));
    }
    digest
}

fn print_end(rt: &HostRuntime, x: u64, end: &str) {
    let _ = print!(rt; "{x}{end}");
}

// Total, in-mass, out-mass and digest.
pub fn report(
    rt: &HostRuntime,
    cells: usize,
    entered: u64,
    gone: u64,
    masses: &[u64; MAX_CELLS],
    moved: &[i64; MAX_FACES],
)
    requires { cells ≤ max_cells }
{
    print_end(rt, total(cells, masses), " ");
    print_end(rt, entered, " ");
    print_end(rt, gone, " ");
    print_end(rt, digest(cells, 2 * cells, masses, moved), "\n");
}
