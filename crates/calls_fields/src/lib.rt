// The calls on the cells of a field beside its tests: the binder's page, what the public reads, and a store of named fields.
#![tactic(auto)]

use calls_arguments::parts::{bytes, copy, number, table};
use calls_arguments::{BYTES_ROOM, ROOM, show};

#[inline(never)]
pub fn page(rt: &HostRuntime, words: &[u64]) {
    let mut room = [0u8; BYTES_ROOM];
    show::word(rt, b"page:");
    let b = bytes(table(words, 4), &mut room);
    calls_answers::printed(
        rt,
        page::page(
            number(words, 0),
            table(words, 1),
            table(words, 2),
            number(words, 3) as u64,
            &mut room[..b],
        ),
    );
    show::octets(rt, b"; bytes", b, &room);
}

#[inline(never)]
pub fn public_page(rt: &HostRuntime, words: &[u64]) {
    let mut room = [0u8; BYTES_ROOM];
    show::word(rt, b"public_page:");
    let b = bytes(table(words, 4), &mut room);
    calls_answers::printed(
        rt,
        public_page::public_page(
            number(words, 0),
            table(words, 1),
            table(words, 2),
            number(words, 3) as u64,
            &mut room[..b],
            table(words, 5),
        ),
    );
    show::octets(rt, b"; bytes", b, &room);
}

#[inline(never)]
pub fn public_board(rt: &HostRuntime, words: &[u64]) {
    show::word(rt, b"public_board:");
    calls_answers::board(
        rt,
        public_board::public_board(
            number(words, 0),
            table(words, 1),
            table(words, 2),
            table(words, 3),
        ),
    );
}

#[inline(never)]
pub fn keep(rt: &HostRuntime, words: &[u64]) {
    let mut kept = [0u64; ROOM];
    show::word(rt, b"keep:");
    let k = copy(table(words, 3), &mut kept);
    calls_answers::verdict(
        rt,
        store::keep(
            number(words, 0),
            table(words, 1),
            table(words, 2),
            &mut kept[..k],
            number(words, 4) as u64,
        ),
    );
    show::numbers(rt, b"; store", k, &kept);
}

#[inline(never)]
pub fn drop(rt: &HostRuntime, words: &[u64]) {
    let mut kept = [0u64; ROOM];
    show::word(rt, b"drop:");
    let k = copy(table(words, 1), &mut kept);
    calls_answers::verdict(
        rt,
        store::drop(number(words, 0), &mut kept[..k], number(words, 2) as u64),
    );
    show::numbers(rt, b"; store", k, &kept);
}

#[inline(never)]
pub fn give_back(rt: &HostRuntime, words: &[u64]) {
    let mut masses = [0u64; ROOM];
    show::word(rt, b"give_back:");
    let m = copy(table(words, 2), &mut masses);
    calls_answers::verdict(
        rt,
        store::give_back(
            number(words, 0),
            table(words, 1),
            &mut masses[..m],
            table(words, 3),
            number(words, 4) as u64,
        ),
    );
    show::numbers(rt, b"; masses", m, &masses);
}
