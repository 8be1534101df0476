// The lagoon of bench/yardstick.c, stepped by the engine. Arguments and the printed line are the yardstick's; a fourth argument chooses
// the lagoon for which that is compiled with LARGE.
#![tactic(auto)]

mod text;

ghost use Rattle.std.specs.Prelude.{◌<◌, ◌≤◌};
ghost use Rattle.model.specs.Mesh.{max_cells, max_faces};
ghost use Rattle.bench_step.specs.Bounds.{max_argument, prime};

use model::{MAX_CELLS, MAX_FACES, Refusal};
use std::num::wrapping_add_u64;
use transport::{Crossed, Way};

// Most cells on a side of the grid.
const SIDE: u64 = MAX_CELLS as u64;

const WORK: usize = 4 * MAX_CELLS + MAX_FACES;

// Pairs of steps in a round.
const PAIRS: u64 = 8;

// What crossed the rim in all steps, and how many steps were refused.
#[derive(Clone, Copy)]
struct Sums {
    entered: u64,
    gone: u64,
    refused: u64,
}

fn with(sums: Sums, answer: Result<Crossed, Refusal>) -> Sums {
    match answer {
        Ok(crossing) => Sums {
            entered: wrapping_add_u64(sums.entered, crossing.entered),
            gone: wrapping_add_u64(sums.gone, crossing.gone),
            refused: sums.refused,
        },
        Err(_) => Sums {
            entered: sums.entered,
            gone: sums.gone,
            refused: wrapping_add_u64(sums.refused, 1),
        },
    }
}

// Two steps, from the masses to the next masses and back.
fn pair(
    cells: usize,
    faces: usize,
    volumes: &[u64; MAX_CELLS],
    firsts: &[u64; MAX_FACES],
    seconds: &[u64; MAX_FACES],
    shares: &[u64; MAX_FACES],
    reaches: &[u64; MAX_FACES],
    masses: &mut [u64; MAX_CELLS],
    fluxes: &[i64; MAX_FACES],
    outsides: &[u64; MAX_FACES],
    next: &mut [u64; MAX_CELLS],
    moved: &mut [i64; MAX_FACES],
    work: &mut [u64; WORK],
    releases: &[u64; MAX_CELLS],
    sums: Sums,
) -> Sums {
    let there = transport::step(
        Way::Corrected,
        cells,
        faces,
        volumes,
        firsts,
        seconds,
        shares,
        reaches,
        masses,
        fluxes,
        outsides,
        next,
        moved,
        work,
        releases,
    );
    let back = transport::step(
        Way::Corrected,
        cells,
        faces,
        volumes,
        firsts,
        seconds,
        shares,
        reaches,
        next,
        fluxes,
        outsides,
        masses,
        moved,
        work,
        releases,
    );
    with(with(sums, there), back)
}

// Before a pair of steps: another season with its outside values, if a round begins.
fn change(
    i: u64,
    season: u64,
    faces: usize,
    seconds: &[u64; MAX_FACES],
    fluxes: &[i64; MAX_FACES],
    outsides: &mut [u64; MAX_FACES],
) -> u64
    requires { (season < prime) × (faces ≤ max_faces) }
    ensures { result < prime }
{
    if i % PAIRS != 0 {
        return season;
    }
    let next = text::mixed(season, i / PAIRS);
    bench_grid::vary(next, faces, seconds, fluxes, outsides);
    next
}

// The pairs of some rounds, reported. The field goes on from round to round, and each round has outside values of its own, so that
// fronts go on entering and no step is taken twice.
fn repeat(
    rt: &HostRuntime,
    cells: usize,
    faces: usize,
    pairs: u64,
    volumes: &[u64; MAX_CELLS],
    firsts: &[u64; MAX_FACES],
    seconds: &[u64; MAX_FACES],
    shares: &[u64; MAX_FACES],
    reaches: &[u64; MAX_FACES],
    masses: &mut [u64; MAX_CELLS],
    fluxes: &[i64; MAX_FACES],
    outsides: &mut [u64; MAX_FACES],
    releases: &[u64; MAX_CELLS],
)
    requires { (cells ≤ max_cells) × (faces ≤ max_faces) }
{
    let mut next = [0u64; MAX_CELLS];
    let mut moved = [0i64; MAX_FACES];
    let mut work = [0u64; WORK];
    let mut sums = Sums {
        entered: 0,
        gone: 0,
        refused: 0,
    };
    let mut season: u64 = 1;
    for i in 0..pairs {
        season = change(i, season, faces, seconds, fluxes, outsides);
        sums = pair(
            cells, faces, volumes, firsts, seconds, shares, reaches, masses, fluxes, outsides,
            &mut next, &mut moved, &mut work, releases, sums,
        );
    }
    if sums.refused == 0 {
        text::report(rt, cells, sums.entered, sums.gone, masses, &moved);
    }
}

// The lagoon made and stepped.
fn run(rt: &HostRuntime, large: bool, cells: usize, width: u64, height: u64, rounds: u64)
    requires { (cells ≤ max_cells) × (1 ≤ width) × (width ≤ max_cells) × (rounds ≤ max_argument) }
{
    let mut volumes = [0u64; MAX_CELLS];
    let mut firsts = [0u64; MAX_FACES];
    let mut seconds = [0u64; MAX_FACES];
    let mut shares = [0u64; MAX_FACES];
    let mut reaches = [0u64; MAX_FACES];
    let mut masses = [0u64; MAX_CELLS];
    let mut fluxes = [0i64; MAX_FACES];
    let mut outsides = [0u64; MAX_FACES];
    let releases = [0u64; MAX_CELLS];
    bench_grid::make_cells(large, cells, width, &mut volumes, &mut masses);
    bench_grid::make_faces(
        large,
        2 * cells,
        width,
        height,
        &mut firsts,
        &mut seconds,
        &mut shares,
        &mut reaches,
        &mut fluxes,
    );
    repeat(
        rt,
        cells,
        2 * cells,
        PAIRS * rounds,
        &volumes,
        &firsts,
        &seconds,
        &shares,
        &reaches,
        &mut masses,
        &fluxes,
        &mut outsides,
        &releases,
    );
}

// WIDTH, HEIGHT and ROUNDS, then 1 for the lagoon of large cells; a grid beyond the limits prints nothing.
fn main(rt: HostRuntime) {
    let width = text::argument(&rt, 1);
    let height = text::argument(&rt, 2);
    let rounds = text::argument(&rt, 3);
    if width < 1 {
        return;
    }
    if width > SIDE {
        return;
    }
    if height > SIDE {
        return;
    }
    let cells = bench_grid::times(width, height);
    if cells > SIDE {
        return;
    }
    let large = text::argument(&rt, 4) == 1;
    run(&rt, large, cells as usize, width, height, rounds);
}
