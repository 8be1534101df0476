// The run program of document 01: a mesh, a field and steps from standard input, a line for each, and the board, in the order of
// `printed` in run_printed/specs/Run.antt. After a failed read or write it prints nothing more, so that no part of a session looks whole.
#![tactic(auto)]

mod board_lines;

ghost use Rattle.std.specs.Prelude.{◌≡◌, ◌≤◌, length};
ghost use Rattle.model.specs.Mesh.{mesh_of, ceiling};
ghost use Rattle.model.specs.Causes.{fine, mesh_values};

use model::{RUN_CELLS, RUN_FACES, RUN_WORK};
use record_layouts::Width;
use run_intake::RECORD;
use run_session::LINES;

// The bytes that are read at once: one of the longest records, or many of a small lagoon's.
const AHEAD: usize = 16384;

// The steps, one after another, until no byte is left or one is refused that ends the run; their lines, written together. Answers whether
// nothing is lost, so that the board may follow. A proved loop has to end and nothing says that the input does, so the step number stops
// it: at a step in each nanosecond after 584 years.
fn steps_in(
    rt: &HostRuntime,
    width: Width,
    cells: usize,
    faces: usize,
    buffer: &mut [u8],
    volumes: &[u64],
    firsts: &[u64],
    seconds: &[u64],
    shares: &[u64],
    reaches: &[u64],
    masses: &mut [u64],
    fluxes: &mut [i64; RUN_FACES],
    outsides: &mut [u64; RUN_FACES],
    releases: &mut [u64; RUN_CELLS],
    next: &mut [u64; RUN_CELLS],
    moved: &mut [i64; RUN_FACES],
    work: &mut [u64; RUN_WORK],
    lines: &mut [u8; LINES],
) -> bool
    requires in_bounds { RECORD ≤ length buffer.old }
    requires reaches_value { mesh_values ceiling (mesh_of cells faces volumes.now firsts.now seconds.now shares.now reaches.now) ≡ fine }
{
    let mut from = 0;
    let mut to = 0;
    let mut unwritten = 0;
    for step in 1..=u64::MAX {
        let room = run_session::make_room(rt, lines, unwritten);
        if room.failed {
            return false;
        }
        let held = run_intake::step(
            rt, width, cells, faces, seconds, buffer, from, to, lines, room.count,
        );
        if held.failed {
            return false;
        }
        unwritten = held.unwritten;
        let start = held.from;
        let end = held.end;
        if start == end {
            return run_session::write(rt, lines, unwritten);
        }
        let taken = taking_records::take_step_in(
            true,
            width,
            cells,
            faces,
            &buffer[start..end],
            volumes,
            firsts,
            seconds,
            shares,
            reaches,
            masses,
            fluxes,
            outsides,
            releases,
            next,
            moved,
            work,
        );
        let told = run_session::tell(step, taken);
        unwritten = run_session::add(told.line, lines, unwritten);
        if told.last {
            return run_session::write(rt, lines, unwritten);
        }
        from = end;
        to = held.to;
    }
    run_session::write(rt, lines, unwritten)
}

// The same, with the tables of a step, which are made once, and room for the lines.
fn steps(
    rt: &HostRuntime,
    width: Width,
    cells: usize,
    faces: usize,
    buffer: &mut [u8],
    volumes: &[u64],
    firsts: &[u64],
    seconds: &[u64],
    shares: &[u64],
    reaches: &[u64],
    masses: &mut [u64],
) -> bool
    requires in_bounds { RECORD ≤ length buffer.old }
    requires reaches_value { mesh_values ceiling (mesh_of cells faces volumes.now firsts.now seconds.now shares.now reaches.now) ≡ fine }
{
    let mut fluxes = [0i64; RUN_FACES];
    let mut outsides = [0u64; RUN_FACES];
    let mut releases = [0u64; RUN_CELLS];
    let mut next = [0u64; RUN_CELLS];
    let mut moved = [0i64; RUN_FACES];
    let mut work = [0u64; RUN_WORK];
    let mut lines = [0u8; LINES];
    steps_in(
        rt,
        width,
        cells,
        faces,
        buffer,
        volumes,
        firsts,
        seconds,
        shares,
        reaches,
        masses,
        &mut fluxes,
        &mut outsides,
        &mut releases,
        &mut next,
        &mut moved,
        &mut work,
        &mut lines,
    )
}

// Field, steps and board on an accepted mesh.
fn run_on(
    rt: &HostRuntime,
    width: Width,
    cells: usize,
    faces: usize,
    buffer: &mut [u8],
    volumes: &[u64],
    firsts: &[u64],
    seconds: &[u64],
    shares: &[u64],
    reaches: &[u64],
)
    requires in_bounds { RECORD ≤ length buffer.old }
    requires reaches_value { mesh_values ceiling (mesh_of cells faces volumes.now firsts.now seconds.now shares.now reaches.now) ≡ fine }
{
    let mut masses = [0u64; RUN_CELLS];
    let read = run_intake::field(rt, width, cells, buffer);
    if read.failed {
        return;
    }
    let got = read.count;
    let answer = taking_records::take_field(width, cells, &buffer[..got], volumes, &mut masses);
    // `let .. else`: the form that document 01 names
    let Ok(total) = answer else {
        if let Err(refusal) = answer {
            run_session::print(rt, run_session::refused_field_line(refusal));
        }
        return;
    };
    if !run_session::print(rt, run_session::start_line(total)) {
        return;
    }
    let whole = steps(
        rt,
        width,
        cells,
        faces,
        buffer,
        volumes,
        firsts,
        seconds,
        shares,
        reaches,
        &mut masses,
    );
    if whole {
        board_lines::print_board(rt, cells, volumes, &masses);
    }
}

fn main(rt: HostRuntime) {
    run_session::greet(&rt);
    let mut buffer = [0u8; AHEAD];
    let mut volumes = [0u64; RUN_CELLS];
    let mut firsts = [0u64; RUN_FACES];
    let mut seconds = [0u64; RUN_FACES];
    let mut shares = [0u64; RUN_FACES];
    let mut reaches = [0u64; RUN_FACES];
    let read = run_intake::mesh(&rt, &mut buffer);
    if read.failed {
        return;
    }
    let got = read.count;
    let answer = taking_mesh::take_mesh(
        &buffer[..got],
        &mut volumes,
        &mut firsts,
        &mut seconds,
        &mut shares,
        &mut reaches,
    );
    // `let .. else`: the form that document 01 names
    let Ok(counts) = answer else {
        if let Err(refusal) = answer {
            run_session::print(&rt, run_session::refused_mesh_line(refusal));
        }
        return;
    };
    let width = counts.width;
    run_on(
        &rt,
        width,
        counts.cells,
        counts.faces,
        &mut buffer,
        &volumes,
        &firsts,
        &seconds,
        &shares,
        &reaches,
    );
}
