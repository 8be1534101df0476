// The board of document 01: the eight cells of highest concentration, by value.
#![tactic(auto)]

ghost use Rattle.std.specs.Prelude.{◌≡◌, true, false, ◌||◌, ◌+◌, ◌≤◌, min, get_or, take, replicate};
ghost use Rattle.lists.specs.Table.{table, over};
ghost use Rattle.lists.specs.Marked.{count};
ghost use Rattle.model.specs.Causes.{fine};
ghost use Rattle.model.specs.Answers.{said};
ghost use Rattle.board_order.specs.Order.{unranked, comes_before, insert_in_order};
ghost use Rattle.public_marks.specs.Marks.{is_open};
ghost use Rattle.board.specs.Board.{board_size, shown, unused, ranked_cells, Rankable, BoardAfter, BoardIs};

use board_order::{Ranked, comes_before, ranked_of};
use checks::check_cells;
use model::Refusal;
use public_marks::is_open;

// Most cells that the board lists.
pub const BOARD_SIZE: usize = 8;

// A listed cell: its number, its concentration q and the rest of its mass, m − qV.
#[derive(Clone, Copy)]
pub struct Entry {
    pub cell: u64,
    pub q: u64,
    pub rest: u64,
}

// The first `used` stand in the board's order; those after them are 0.
#[derive(Clone, Copy)]
struct Ranking {
    used: usize,
    ranks: [Ranked; BOARD_SIZE],
}

// Entries after a refusal are 0, and so is their number.
#[derive(Clone, Copy)]
pub struct BoardAnswer {
    pub verdict: Result<(), Refusal>,
    pub used: usize,
    pub entries: [Entry; BOARD_SIZE],
}

fn empty_ranking() -> Ranking
    ensures { (result.used ≡ 0) × (result.ranks ≡ replicate board_size unranked) }
{
    let none = Ranked {
        cell: 0,
        q: 0,
        rest: 0,
        volume: 0,
    };
    let ranks = [none; BOARD_SIZE];
    Ranking {
        used: 0,
        ranks: ranks,
    }
}

// Whether a is written in the place of b: it comes before b, or those from its place on move back by one already.
fn displaces(moving: bool, a: Ranked, b: Ranked) -> bool
    ensures { result ≡ (moving || comes_before a b) }
{
    if moving {
        return true;
    }
    comes_before(a, b)
}

// One cell inserted among those used; the last of eight falls out where a ninth comes in.
fn insert(ranking: Ranking, ranked: Ranked) -> Ranking
    requires { ranking.used ≤ board_size }
    ensures { (result.used ≡ min board_size (ranking.used + 1))
        × (result.ranks ≡ over (take board_size (insert_in_order comes_before ranked (take ranking.used ranking.ranks))) ranking.ranks) }
{
    let used = ranking.used;
    let mut ranks = ranking.ranks;
    let mut carried = ranked;
    let mut moving = false;
    for i in 0..used {
        let present = ranks[i];
        if displaces(moving, carried, present) {
            ranks[i] = carried;
            carried = present;
            moving = true;
        }
    }
    if used < BOARD_SIZE {
        ranks[used] = carried;
        return Ranking {
            used: used + 1,
            ranks: ranks,
        };
    }
    Ranking {
        used: used,
        ranks: ranks,
    }
}

// A visible cell inserted among those used; another left out.
fn insert_if(visible: bool, ranking: Ranking, ranked: Ranked) -> Ranking
    requires { ranking.used ≤ board_size }
    ensures { (visible ≡ true → (result.used ≡ min board_size (ranking.used + 1))
        × (result.ranks ≡ over (take board_size (insert_in_order comes_before ranked (take ranking.used ranking.ranks))) ranking.ranks))
        × (visible ≡ false → (result.used ≡ ranking.used) × (result.ranks ≡ ranking.ranks)) }
{
    if visible {
        return insert(ranking, ranked);
    }
    ranking
}

// The highest of the open cells below `cells`, each inserted in turn.
fn rank(cells: usize, volumes: &[u64], masses: &[u64], marks: &[u64]) -> Ranking
    requires { Rankable volumes.now masses.now cells }
    ensures { (result.used ≡ min board_size (count cells (is_open marks.now)))
        × (result.ranks ≡ ranked_cells volumes.now masses.now (is_open marks.now) cells) }
{
    let mut ranking = empty_ranking();
    for c in 0..cells {
        let ranked = ranked_of(c as u64, volumes[c], masses[c]);
        ranking = insert_if(is_open(marks, c), ranking, ranked);
    }
    ranking
}

// The entries of a ranking: what is shown of each that is used, and 0 after them.
fn entries_of(ranking: Ranking) -> [Entry; BOARD_SIZE]
    requires { ranking.used ≤ board_size }
    ensures { result ≡ over (table ranking.used (λ i. shown (get_or ranking.ranks i unranked))) (replicate board_size unused) }
{
    let none = Entry {
        cell: 0,
        q: 0,
        rest: 0,
    };
    let mut entries = [none; BOARD_SIZE];
    let ranks = ranking.ranks;
    for i in 0..ranking.used {
        let a = ranks[i];
        entries[i] = Entry {
            cell: a.cell,
            q: a.q,
            rest: a.rest as u64,
        };
    }
    entries
}

// The board of open cells where the field was accepted; none after a refusal.
pub fn board_after(
    verdict: Result<(), Refusal>,
    cells: usize,
    volumes: &[u64],
    masses: &[u64],
    marks: &[u64],
) -> BoardAnswer
    requires { said verdict ≡ fine → Rankable volumes.now masses.now cells }
    ensures { BoardAfter (said verdict) volumes.now masses.now (is_open marks.now) cells result }
{
    if let Err(_) = verdict {
        let none = empty_ranking();
        return BoardAnswer {
            verdict: verdict,
            used: none.used,
            entries: entries_of(none),
        };
    }
    let ranking = rank(cells, volumes, masses, marks);
    BoardAnswer {
        verdict: verdict,
        used: ranking.used,
        entries: entries_of(ranking),
    }
}

// The growers' board of a field, without marks: causes 1 (cells), 2 (volumes, masses), 3 and 6, else the highest cells.
pub fn board(cells: usize, volumes: &[u64], masses: &[u64]) -> BoardAnswer
    ensures { BoardIs cells volumes.now masses.now result }
{
    let verdict = check_cells(cells, volumes, masses);
    board_after(verdict, cells, volumes, masses, &volumes[..0])
}
