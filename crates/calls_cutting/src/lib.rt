// The cutting of a lagoon in two.
#![tactic(auto)]

ghost use Rattle.std.specs.Prelude.{◌≤◌, ◌≡◌, length};

use calls_arguments::parts::{amounts, copy, copy_amounts, number, table};
use calls_arguments::{PART_ROOM, show};
use cutting::Counts;
use model::Refusal;

// Cells and faces of part 0, then of part 1.
fn answer(rt: &HostRuntime, said: Result<Counts, Refusal>) {
    match said {
        Ok(counts) => {
            calls_answers::accepted_with(rt, counts.cells_0 as u64);
            show::number(rt, counts.faces_0 as u64);
            show::number(rt, counts.cells_1 as u64);
            show::number(rt, counts.faces_1 as u64);
        }
        Err(refusal) => calls_answers::refused(rt, refusal),
    }
}

// How many entries of a table are lent for a part.
fn size(words: &[u64], argument: usize) -> usize
    ensures { result ≤ 8192 }
{
    let n = table(words, argument).len();
    if n <= PART_ROOM { n } else { PART_ROOM }
}

// An array that holds the entries of a table, to be lent for a part.
fn held(words: &[u64], argument: usize) -> [u64; PART_ROOM]
    ensures { length result ≡ 8192 }
{
    let mut to = [0u64; PART_ROOM];
    copy(table(words, argument), &mut to);
    to
}

fn held_amounts(words: &[u64], ints: &[i64], argument: usize) -> [i64; PART_ROOM]
    ensures { length result ≡ 8192 }
{
    let mut to = [0i64; PART_ROOM];
    copy_amounts(amounts(words, ints, argument), &mut to);
    to
}

// The nine tables of a part follow each other among the arguments.
#[inline(never)]
pub fn cut(rt: &HostRuntime, words: &[u64], ints: &[i64]) {
    show::word(rt, b"cut:");
    let mut volumes0 = held(words, 12);
    let mut firsts0 = held(words, 13);
    let mut seconds0 = held(words, 14);
    let mut shares0 = held(words, 15);
    let mut reaches0 = held(words, 16);
    let mut masses0 = held(words, 17);
    let mut fluxes0 = held_amounts(words, ints, 18);
    let mut outsides0 = held(words, 19);
    let mut releases0 = held(words, 20);
    let mut volumes1 = held(words, 21);
    let mut firsts1 = held(words, 22);
    let mut seconds1 = held(words, 23);
    let mut shares1 = held(words, 24);
    let mut reaches1 = held(words, 25);
    let mut masses1 = held(words, 26);
    let mut fluxes1 = held_amounts(words, ints, 27);
    let mut outsides1 = held(words, 28);
    let mut releases1 = held(words, 29);
    let cells = number(words, 0);
    let faces = number(words, 1);
    let volumes = table(words, 2);
    let firsts = table(words, 3);
    let seconds = table(words, 4);
    let shares = table(words, 5);
    let reaches = table(words, 6);
    let masses = table(words, 7);
    let fluxes = amounts(words, ints, 8);
    let outsides = table(words, 9);
    let releases = table(words, 10);
    let labels = table(words, 11);
    answer(
        rt,
        cutting::cut(
            &mut volumes0[..size(words, 12)],
            &mut firsts0[..size(words, 13)],
            &mut seconds0[..size(words, 14)],
            &mut shares0[..size(words, 15)],
            &mut reaches0[..size(words, 16)],
            &mut masses0[..size(words, 17)],
            &mut fluxes0[..size(words, 18)],
            &mut outsides0[..size(words, 19)],
            &mut releases0[..size(words, 20)],
            &mut volumes1[..size(words, 21)],
            &mut firsts1[..size(words, 22)],
            &mut seconds1[..size(words, 23)],
            &mut shares1[..size(words, 24)],
            &mut reaches1[..size(words, 25)],
            &mut masses1[..size(words, 26)],
            &mut fluxes1[..size(words, 27)],
            &mut outsides1[..size(words, 28)],
            &mut releases1[..size(words, 29)],
            cells,
            faces,
            volumes,
            firsts,
            seconds,
            shares,
            reaches,
            masses,
            fluxes,
            outsides,
            releases,
            labels,
        ),
    );
    show::part_numbers(rt, b"; volumes0", size(words, 12), &volumes0);
    show::part_numbers(rt, b"; firsts0", size(words, 13), &firsts0);
    show::part_numbers(rt, b"; seconds0", size(words, 14), &seconds0);
    show::part_numbers(rt, b"; shares0", size(words, 15), &shares0);
    show::part_numbers(rt, b"; reaches0", size(words, 16), &reaches0);
    show::part_numbers(rt, b"; masses0", size(words, 17), &masses0);
    show::part_amounts(rt, b"; fluxes0", size(words, 18), &fluxes0);
    show::part_numbers(rt, b"; outsides0", size(words, 19), &outsides0);
    show::part_numbers(rt, b"; releases0", size(words, 20), &releases0);
    show::part_numbers(rt, b"; volumes1", size(words, 21), &volumes1);
    show::part_numbers(rt, b"; firsts1", size(words, 22), &firsts1);
    show::part_numbers(rt, b"; seconds1", size(words, 23), &seconds1);
    show::part_numbers(rt, b"; shares1", size(words, 24), &shares1);
    show::part_numbers(rt, b"; reaches1", size(words, 25), &reaches1);
    show::part_numbers(rt, b"; masses1", size(words, 26), &masses1);
    show::part_amounts(rt, b"; fluxes1", size(words, 27), &fluxes1);
    show::part_numbers(rt, b"; outsides1", size(words, 28), &outsides1);
    show::part_numbers(rt, b"; releases1", size(words, 29), &releases1);
}
