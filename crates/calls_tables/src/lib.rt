// The calls on tables: tests, total, board, step, plain step and judging.
#![tactic(auto)]

use calls_arguments::parts::{amounts, copy, copy_amounts, number, table};
use calls_arguments::{ROOM, show};
use transport::Way;

#[inline(never)]
pub fn counts_within(rt: &HostRuntime, words: &[u64]) {
    show::word(rt, b"counts_within:");
    calls_answers::verdict(
        rt,
        checks::counts_within(
            number(words, 0),
            number(words, 1),
            number(words, 2),
            number(words, 3),
        ),
    );
}

#[inline(never)]
pub fn check_mesh(rt: &HostRuntime, words: &[u64]) {
    show::word(rt, b"check_mesh:");
    calls_answers::verdict(
        rt,
        checks::check_mesh(
            number(words, 0),
            number(words, 1),
            table(words, 2),
            table(words, 3),
            table(words, 4),
            table(words, 5),
            table(words, 6),
        ),
    );
}

#[inline(never)]
pub fn check_field(rt: &HostRuntime, words: &[u64]) {
    show::word(rt, b"check_field:");
    calls_answers::verdict(
        rt,
        checks::check_field(
            number(words, 0),
            number(words, 1),
            table(words, 2),
            table(words, 3),
            table(words, 4),
            table(words, 5),
            table(words, 6),
            table(words, 7),
        ),
    );
}

#[inline(never)]
pub fn check_cells(rt: &HostRuntime, words: &[u64]) {
    show::word(rt, b"check_cells:");
    calls_answers::verdict(
        rt,
        checks::check_cells(number(words, 0), table(words, 1), table(words, 2)),
    );
}

#[inline(never)]
pub fn check_step(rt: &HostRuntime, words: &[u64], ints: &[i64]) {
    show::word(rt, b"check_step:");
    calls_answers::verdict(
        rt,
        checks::check_step(
            number(words, 0),
            number(words, 1),
            table(words, 2),
            table(words, 3),
            table(words, 4),
            table(words, 5),
            table(words, 6),
            table(words, 7),
            amounts(words, ints, 8),
            table(words, 9),
            table(words, 10),
            amounts(words, ints, 11),
            table(words, 12),
            table(words, 13),
        ),
    );
}

#[inline(never)]
pub fn total(rt: &HostRuntime, words: &[u64]) {
    show::word(rt, b"total:");
    calls_answers::total(
        rt,
        checks::total(number(words, 0), table(words, 1), table(words, 2)),
    );
}

#[inline(never)]
pub fn board(rt: &HostRuntime, words: &[u64]) {
    show::word(rt, b"board:");
    calls_answers::board(
        rt,
        board::board(number(words, 0), table(words, 1), table(words, 2)),
    );
}

#[inline(never)]
pub fn step(rt: &HostRuntime, words: &[u64], ints: &[i64]) {
    show::word(rt, b"step:");
    stepped(rt, Way::Corrected, words, ints);
}

#[inline(never)]
pub fn plain_step(rt: &HostRuntime, words: &[u64], ints: &[i64]) {
    show::word(rt, b"plain_step:");
    stepped(rt, Way::Plain, words, ints);
}

fn stepped(rt: &HostRuntime, way: Way, words: &[u64], ints: &[i64]) {
    fill(
        rt,
        way,
        number(words, 0),
        number(words, 1),
        table(words, 2),
        table(words, 3),
        table(words, 4),
        table(words, 5),
        table(words, 6),
        table(words, 7),
        amounts(words, ints, 8),
        table(words, 9),
        table(words, 10),
        amounts(words, ints, 11),
        table(words, 12),
        table(words, 13),
    );
}

// A step that writes into arrays which hold the entries given.
fn fill(
    rt: &HostRuntime,
    way: Way,
    cells: usize,
    faces: usize,
    volumes: &[u64],
    firsts: &[u64],
    seconds: &[u64],
    shares: &[u64],
    reaches: &[u64],
    masses: &[u64],
    fluxes: &[i64],
    outsides: &[u64],
    given_next: &[u64],
    given_moved: &[i64],
    given_work: &[u64],
    releases: &[u64],
) {
    let mut next = [0u64; ROOM];
    let mut moved = [0i64; ROOM];
    let mut work = [0u64; ROOM];
    let n = copy(given_next, &mut next);
    let m = copy_amounts(given_moved, &mut moved);
    let w = copy(given_work, &mut work);
    calls_answers::step(
        rt,
        transport::step(
            way,
            cells,
            faces,
            volumes,
            firsts,
            seconds,
            shares,
            reaches,
            masses,
            fluxes,
            outsides,
            &mut next[..n],
            &mut moved[..m],
            &mut work[..w],
            releases,
        ),
    );
    show::numbers(rt, b"; next", n, &next);
    show::amounts(rt, b"; moved", m, &moved);
    show::numbers(rt, b"; work", w, &work);
}

#[inline(never)]
pub fn judge(rt: &HostRuntime, words: &[u64], ints: &[i64]) {
    show::word(rt, b"judge:");
    judged(
        rt,
        number(words, 0),
        number(words, 1),
        table(words, 2),
        table(words, 3),
        table(words, 4),
        table(words, 5),
        table(words, 6),
        table(words, 7),
        amounts(words, ints, 8),
        table(words, 9),
        table(words, 10),
        amounts(words, ints, 11),
        table(words, 12),
    );
}

// A judging that writes into an array which holds the entries given.
fn judged(
    rt: &HostRuntime,
    cells: usize,
    faces: usize,
    volumes: &[u64],
    firsts: &[u64],
    seconds: &[u64],
    shares: &[u64],
    reaches: &[u64],
    masses: &[u64],
    fluxes: &[i64],
    outsides: &[u64],
    given_next: &[u64],
    claim: &[i64],
    releases: &[u64],
) {
    let mut next = [0u64; ROOM];
    let n = copy(given_next, &mut next);
    calls_answers::step(
        rt,
        judging::judge(
            cells,
            faces,
            volumes,
            firsts,
            seconds,
            shares,
            reaches,
            masses,
            fluxes,
            outsides,
            &mut next[..n],
            claim,
            releases,
        ),
    );
    show::numbers(rt, b"; next", n, &next);
}
