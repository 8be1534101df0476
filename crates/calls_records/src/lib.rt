// The calls that read and write records: lengths, readers, writers and the cursor's.
#![tactic(auto)]

use calls_arguments::parts::{amounts, bytes, copy, copy_amounts, number, octets, table};
use calls_arguments::{BYTES_ROOM, ROOM, show};
use record_layouts::{StepKind, Width};

#[inline(never)]
pub fn mesh_length(rt: &HostRuntime, words: &[u64], bytes: &[u8]) {
    show::word(rt, b"mesh_length:");
    calls_answers::mesh_length(
        rt,
        record_heads::mesh_length(number(words, 0), number(words, 1), octets(words, bytes, 2)),
    );
}

#[inline(never)]
pub fn field_length(rt: &HostRuntime, words: &[u64], bytes: &[u8]) {
    show::word(rt, b"field_length:");
    calls_answers::length(
        rt,
        record_heads::field_length(
            calls_answers::width(number(words, 0)),
            number(words, 1),
            octets(words, bytes, 2),
        ),
    );
}

#[inline(never)]
pub fn step_length(rt: &HostRuntime, words: &[u64], bytes: &[u8]) {
    show::word(rt, b"step_length:");
    calls_answers::length(
        rt,
        record_heads::step_length(
            calls_answers::width(number(words, 0)),
            number(words, 1),
            number(words, 2),
            table(words, 3),
            octets(words, bytes, 4),
        ),
    );
}

#[inline(never)]
pub fn read_mesh(rt: &HostRuntime, words: &[u64], bytes: &[u8]) {
    show::word(rt, b"read_mesh:");
    fill_mesh(
        rt,
        number(words, 0),
        number(words, 1),
        octets(words, bytes, 2),
        table(words, 3),
        table(words, 4),
        table(words, 5),
        table(words, 6),
        table(words, 7),
    );
}

// A mesh record read into arrays that hold the entries given.
fn fill_mesh(
    rt: &HostRuntime,
    most_cells: usize,
    most_faces: usize,
    record: &[u8],
    given_volumes: &[u64],
    given_firsts: &[u64],
    given_seconds: &[u64],
    given_shares: &[u64],
    given_reaches: &[u64],
) {
    let mut volumes = [0u64; ROOM];
    let mut firsts = [0u64; ROOM];
    let mut seconds = [0u64; ROOM];
    let mut shares = [0u64; ROOM];
    let mut reaches = [0u64; ROOM];
    let v = copy(given_volumes, &mut volumes);
    let f = copy(given_firsts, &mut firsts);
    let s = copy(given_seconds, &mut seconds);
    let h = copy(given_shares, &mut shares);
    let r = copy(given_reaches, &mut reaches);
    calls_answers::mesh(
        rt,
        record_reading::read_mesh(
            most_cells,
            most_faces,
            record,
            &mut volumes[..v],
            &mut firsts[..f],
            &mut seconds[..s],
            &mut shares[..h],
            &mut reaches[..r],
        ),
    );
    calls_answers::mesh_tables(
        rt, v, &volumes, f, &firsts, s, &seconds, h, &shares, r, &reaches,
    );
}

#[inline(never)]
pub fn read_field(rt: &HostRuntime, words: &[u64], bytes: &[u8]) {
    let mut masses = [0u64; ROOM];
    show::word(rt, b"read_field:");
    let m = copy(table(words, 3), &mut masses);
    calls_answers::verdict(
        rt,
        record_reading::read_field(
            calls_answers::width(number(words, 0)),
            number(words, 1),
            octets(words, bytes, 2),
            &mut masses[..m],
        ),
    );
    show::numbers(rt, b"; masses", m, &masses);
}

#[inline(never)]
pub fn read_step(rt: &HostRuntime, words: &[u64], ints: &[i64], bytes: &[u8]) {
    show::word(rt, b"read_step:");
    fill_step(
        rt,
        calls_answers::width(number(words, 0)),
        number(words, 1),
        number(words, 2),
        table(words, 3),
        octets(words, bytes, 4),
        amounts(words, ints, 5),
        table(words, 6),
        table(words, 7),
    );
}

// A step record read into arrays that hold the entries given.
fn fill_step(
    rt: &HostRuntime,
    width: Width,
    cells: usize,
    faces: usize,
    seconds: &[u64],
    record: &[u8],
    given_fluxes: &[i64],
    given_outsides: &[u64],
    given_releases: &[u64],
) {
    let mut fluxes = [0i64; ROOM];
    let mut outsides = [0u64; ROOM];
    let mut releases = [0u64; ROOM];
    let f = copy_amounts(given_fluxes, &mut fluxes);
    let o = copy(given_outsides, &mut outsides);
    let r = copy(given_releases, &mut releases);
    let said = record_reading::read_step(
        width,
        cells,
        faces,
        seconds,
        record,
        &mut fluxes[..f],
        &mut outsides[..o],
        &mut releases[..r],
    );
    calls_answers::step_read(rt, width, said);
    show::amounts(rt, b"; fluxes", f, &fluxes);
    show::numbers(rt, b"; outsides", o, &outsides);
    show::numbers(rt, b"; releases", r, &releases);
}

#[inline(never)]
pub fn write_mesh(rt: &HostRuntime, words: &[u64]) {
    let mut record = [0u8; BYTES_ROOM];
    show::word(rt, b"write_mesh:");
    let b = bytes(table(words, 8), &mut record);
    calls_answers::written(
        rt,
        record_writing::write_mesh(
            calls_answers::width(number(words, 0)),
            number(words, 1),
            number(words, 2),
            table(words, 3),
            table(words, 4),
            table(words, 5),
            table(words, 6),
            table(words, 7),
            &mut record[..b],
        ),
    );
    show::octets(rt, b"; bytes", b, &record);
}

#[inline(never)]
pub fn write_field(rt: &HostRuntime, words: &[u64]) {
    let mut record = [0u8; BYTES_ROOM];
    show::word(rt, b"write_field:");
    let b = bytes(table(words, 9), &mut record);
    calls_answers::written(
        rt,
        record_writing::write_field(
            calls_answers::width(number(words, 0)),
            number(words, 1),
            number(words, 2),
            table(words, 3),
            table(words, 4),
            table(words, 5),
            table(words, 6),
            table(words, 7),
            table(words, 8),
            &mut record[..b],
        ),
    );
    show::octets(rt, b"; bytes", b, &record);
}

// The kind of a step that a script names: 4, or any other number for 3.
fn kind(named: usize) -> StepKind {
    if named as u64 == record_layouts::OUTFALL_KIND {
        StepKind::Outfalls
    } else {
        StepKind::Water
    }
}

#[inline(never)]
pub fn write_step(rt: &HostRuntime, words: &[u64], ints: &[i64]) {
    let mut record = [0u8; BYTES_ROOM];
    show::word(rt, b"write_step:");
    let b = bytes(table(words, 11), &mut record);
    calls_answers::written(
        rt,
        record_writing::write_step(
            calls_answers::width(number(words, 0)),
            kind(number(words, 1)),
            number(words, 2),
            number(words, 3),
            table(words, 4),
            table(words, 5),
            table(words, 6),
            table(words, 7),
            table(words, 8),
            amounts(words, ints, 9),
            table(words, 10),
            &mut record[..b],
            table(words, 12),
        ),
    );
    show::octets(rt, b"; bytes", b, &record);
}

#[inline(never)]
pub fn number_at(rt: &HostRuntime, words: &[u64], bytes: &[u8]) {
    show::word(rt, b"number_at:");
    calls_answers::spelled(
        rt,
        record_reader::number_at(octets(words, bytes, 0), number(words, 1), number(words, 2)),
    );
}
