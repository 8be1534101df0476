// The answers of the calls as they are printed: accepted with its values, or refused with its cause and its place.
#![tactic(auto)]

use board::{BoardAnswer, Entry};
use calls_arguments::{ROOM, show};
use model::Refusal;
use record_heads::MeshLength;
use record_layouts::{StepKind, Width};
use record_reading::MeshCounts;
use transport::Crossed;

fn accepted(rt: &HostRuntime) {
    show::word(rt, b" accepted");
}

pub fn accepted_with(rt: &HostRuntime, value: u64) {
    accepted(rt);
    show::number(rt, value);
}

pub fn refused(rt: &HostRuntime, refusal: Refusal) {
    show::word(rt, b" refused");
    let cause = refusal.cause;
    show::number(rt, model::number(cause));
    show::number(rt, refusal.place);
}

pub fn verdict(rt: &HostRuntime, said: Result<(), Refusal>) {
    match said {
        Ok(()) => accepted(rt),
        Err(refusal) => refused(rt, refusal),
    }
}

pub fn total(rt: &HostRuntime, said: Result<u64, Refusal>) {
    match said {
        Ok(sum) => accepted_with(rt, sum),
        Err(refusal) => refused(rt, refusal),
    }
}

// In-mass, out-mass and released mass.
pub fn step(rt: &HostRuntime, said: Result<Crossed, Refusal>) {
    match said {
        Ok(crossing) => {
            accepted_with(rt, crossing.entered);
            show::number(rt, crossing.gone);
            show::number(rt, crossing.released);
        }
        Err(refusal) => refused(rt, refusal),
    }
}

pub fn length(rt: &HostRuntime, said: Result<usize, Refusal>) {
    match said {
        Ok(bytes) => accepted_with(rt, bytes as u64),
        Err(refusal) => refused(rt, refusal),
    }
}

// The width that a script names, as from C: 0 for the narrow kinds, any other number for the wide ones.
pub fn width(named: usize) -> Width {
    if named == 0 {
        Width::Narrow
    } else {
        Width::Wide
    }
}

fn width_number(width: Width) -> u64 {
    match width {
        Width::Narrow => 0,
        Width::Wide => 1,
    }
}

// The bytes and the width.
pub fn mesh_length(rt: &HostRuntime, said: Result<MeshLength, Refusal>) {
    match said {
        Ok(length) => {
            accepted_with(rt, length.bytes as u64);
            let width = length.width;
            show::number(rt, width_number(width));
        }
        Err(refusal) => refused(rt, refusal),
    }
}

// The counts and the width.
pub fn mesh(rt: &HostRuntime, said: Result<MeshCounts, Refusal>) {
    match said {
        Ok(counts) => {
            accepted_with(rt, counts.cells as u64);
            show::number(rt, counts.faces as u64);
            let width = counts.width;
            show::number(rt, width_number(width));
        }
        Err(refusal) => refused(rt, refusal),
    }
}

// The number of the kind.
pub fn step_read(rt: &HostRuntime, width: Width, said: Result<StepKind, Refusal>) {
    match said {
        Ok(kind) => accepted_with(rt, record_layouts::kind_number(width, kind)),
        Err(refusal) => refused(rt, refusal),
    }
}

pub fn written(rt: &HostRuntime, said: Result<u64, Refusal>) {
    match said {
        Ok(length) => accepted_with(rt, length),
        Err(refusal) => refused(rt, refusal),
    }
}

pub fn printed(rt: &HostRuntime, said: Result<u64, Refusal>) {
    match said {
        Ok(length) => accepted_with(rt, length),
        Err(refusal) => refused(rt, refusal),
    }
}

// A field of bits that is not within the record has no cause.
pub fn spelled(rt: &HostRuntime, said: Option<u64>) {
    match said {
        Some(n) => accepted_with(rt, n),
        None => show::word(rt, b" past"),
    }
}

// The five tables of a mesh, of each as many entries as were lent.
pub fn mesh_tables(
    rt: &HostRuntime,
    v: usize,
    volumes: &[u64; ROOM],
    f: usize,
    firsts: &[u64; ROOM],
    s: usize,
    seconds: &[u64; ROOM],
    h: usize,
    shares: &[u64; ROOM],
    r: usize,
    reaches: &[u64; ROOM],
) {
    show::numbers(rt, b"; volumes", v, volumes);
    show::numbers(rt, b"; firsts", f, firsts);
    show::numbers(rt, b"; seconds", s, seconds);
    show::numbers(rt, b"; shares", h, shares);
    show::numbers(rt, b"; reaches", r, reaches);
}

pub fn share(rt: &HostRuntime, said: Result<u64, Refusal>) {
    match said {
        Ok(k) => accepted_with(rt, k),
        Err(refusal) => refused(rt, refusal),
    }
}

fn entry(rt: &HostRuntime, e: Entry) {
    show::number(rt, e.cell);
    show::number(rt, e.q);
    show::number(rt, e.rest);
}

// The verdict, how many entries are used, and all eight of them.
pub fn board(rt: &HostRuntime, said: BoardAnswer) {
    let judged = said.verdict;
    let entries = said.entries;
    verdict(rt, judged);
    show::word(rt, b"; used");
    show::number(rt, said.used as u64);
    show::word(rt, b"; entries");
    for e in entries.iter() {
        entry(rt, *e);
    }
}
