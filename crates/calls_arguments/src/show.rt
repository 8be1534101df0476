// What a program prints of a call: words, numbers and tables. What cannot be written is lost, and nothing is said of it.
use crate::{BYTES_ROOM, PART_ROOM, ROOM};

pub fn word(rt: &HostRuntime, text: &[u8]) {
    let _ = rt.write_all(text);
}

pub fn number(rt: &HostRuntime, n: u64) {
    let _ = print!(rt; " {n}");
}

fn amount(rt: &HostRuntime, z: i64) {
    let _ = print!(rt; " {z}");
}

fn octet(rt: &HostRuntime, b: u8) {
    number(rt, b as u64);
}

// The first n entries of a table.
fn entries(rt: &HostRuntime, title: &[u8], n: usize, xs: &[u64]) {
    word(rt, title);
    for x in xs.iter().take(n) {
        number(rt, *x);
    }
}

fn signed_entries(rt: &HostRuntime, title: &[u8], n: usize, xs: &[i64]) {
    word(rt, title);
    for x in xs.iter().take(n) {
        amount(rt, *x);
    }
}

pub fn numbers(rt: &HostRuntime, title: &[u8], n: usize, xs: &[u64; ROOM]) {
    entries(rt, title, n, xs);
}

pub fn amounts(rt: &HostRuntime, title: &[u8], n: usize, xs: &[i64; ROOM]) {
    signed_entries(rt, title, n, xs);
}

pub fn part_numbers(rt: &HostRuntime, title: &[u8], n: usize, xs: &[u64; PART_ROOM]) {
    entries(rt, title, n, xs);
}

pub fn part_amounts(rt: &HostRuntime, title: &[u8], n: usize, xs: &[i64; PART_ROOM]) {
    signed_entries(rt, title, n, xs);
}

pub fn octets(rt: &HostRuntime, title: &[u8], n: usize, xs: &[u8; BYTES_ROOM]) {
    word(rt, title);
    for x in xs.iter().take(n) {
        octet(rt, *x);
    }
}
