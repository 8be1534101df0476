// The calls that take records: a mesh, a field, a step, and the host's.
#![tactic(auto)]

use calls_arguments::parts::{bytes, copy, number, octets, table};
use calls_arguments::{BYTES_ROOM, ROOM, show};
use model::{Printed, Refusal};

// The host's answer is one number, printed as it is.
#[inline(never)]
pub fn lagoon_step(rt: &HostRuntime, words: &[u64], records: &[u8]) {
    let mut next = [0u8; BYTES_ROOM];
    show::word(rt, b"lagoon_step:");
    let n = bytes(table(words, 3), &mut next);
    show::number(
        rt,
        lagoon_step::lagoon_step(
            octets(words, records, 0),
            octets(words, records, 1),
            octets(words, records, 2),
            &mut next[..n],
        ),
    );
    show::octets(rt, b"; next", n, &next);
}

#[inline(never)]
pub fn take_mesh(rt: &HostRuntime, words: &[u64], records: &[u8]) {
    show::word(rt, b"take_mesh:");
    fill_mesh(
        rt,
        octets(words, records, 0),
        table(words, 1),
        table(words, 2),
        table(words, 3),
        table(words, 4),
        table(words, 5),
    );
}

// A mesh record taken into arrays that hold the entries given.
fn fill_mesh(
    rt: &HostRuntime,
    record: &[u8],
    given_volumes: &[u64],
    given_firsts: &[u64],
    given_seconds: &[u64],
    given_shares: &[u64],
    given_reaches: &[u64],
) {
    let mut volumes = [0u64; ROOM];
    let mut firsts = [0u64; ROOM];
    let mut seconds = [0u64; ROOM];
    let mut shares = [0u64; ROOM];
    let mut reaches = [0u64; ROOM];
    let v = copy(given_volumes, &mut volumes);
    let f = copy(given_firsts, &mut firsts);
    let s = copy(given_seconds, &mut seconds);
    let h = copy(given_shares, &mut shares);
    let r = copy(given_reaches, &mut reaches);
    calls_answers::mesh(
        rt,
        taking_mesh::take_mesh(
            record,
            &mut volumes[..v],
            &mut firsts[..f],
            &mut seconds[..s],
            &mut shares[..h],
            &mut reaches[..r],
        ),
    );
    calls_answers::mesh_tables(
        rt, v, &volumes, f, &firsts, s, &seconds, h, &shares, r, &reaches,
    );
}

#[inline(never)]
pub fn take_field(rt: &HostRuntime, words: &[u64], records: &[u8]) {
    let mut masses = [0u64; ROOM];
    show::word(rt, b"take_field:");
    let m = copy(table(words, 4), &mut masses);
    calls_answers::total(
        rt,
        taking_records::take_field(
            calls_answers::width(number(words, 0)),
            number(words, 1),
            octets(words, records, 2),
            table(words, 3),
            &mut masses[..m],
        ),
    );
    show::numbers(rt, b"; masses", m, &masses);
}

// In-mass, out-mass, the total afterwards and the released mass.
fn taken(rt: &HostRuntime, said: Result<Printed, Refusal>) {
    match said {
        Ok(printed) => {
            calls_answers::accepted_with(rt, printed.entered);
            show::number(rt, printed.gone);
            show::number(rt, printed.total);
            show::number(rt, printed.released);
        }
        Err(refusal) => calls_answers::refused(rt, refusal),
    }
}

#[inline(never)]
pub fn take_step(rt: &HostRuntime, words: &[u64], records: &[u8]) {
    let mut masses = [0u64; ROOM];
    show::word(rt, b"take_step:");
    let m = copy(table(words, 9), &mut masses);
    taken(
        rt,
        taking_records::take_step(
            calls_answers::width(number(words, 0)),
            number(words, 1),
            number(words, 2),
            octets(words, records, 3),
            table(words, 4),
            table(words, 5),
            table(words, 6),
            table(words, 7),
            table(words, 8),
            &mut masses[..m],
        ),
    );
    show::numbers(rt, b"; masses", m, &masses);
}
