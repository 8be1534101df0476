// Columns of one part that rest on its cells' numbers or on concentrations: each fills an array of its own first.
ghost use Rattle.std.specs.Prelude.{◌≡◌, ℕ, ◌^◌, ◌≤◌, ◌<◌, pos, length, get_or};
ghost use Rattle.lists.specs.Table.{over};
ghost use Rattle.lists.specs.Marked.{count, picked};
ghost use Rattle.signed.specs.Sign.{size};
ghost use Rattle.model.specs.Step.{raised, rounded};
ghost use Rattle.cutting_pieces.specs.Pieces.{touching_at, new_first_at, new_second_at, new_outside_at, JoinedFaces, CellsGood};

use crate::faces;
use cutting_pieces::cells::{concentrations, numbers};
use model::ENDS;

// The first cells of a part's faces.
pub fn firsts(
    cells: usize,
    faces: usize,
    part: u64,
    labels: &[u64],
    firsts: &[u64],
    seconds: &[u64],
    out: &mut [u64],
) -> usize
    requires { JoinedFaces cells faces labels.now firsts.now seconds.now × (faces ≤ length out.old) }
    ensures value { result ≡ count faces (touching_at labels.now part firsts.now seconds.now) }
    ensures out_after { out.new ≡ over (picked faces (touching_at labels.now part firsts.now seconds.now)
        (new_first_at labels.now part firsts.now seconds.now)) out.old }
{
    let mut table = [0u64; ENDS];
    numbers(cells, part, labels, &mut table);
    faces::firsts(faces, part, labels, &table, firsts, seconds, out)
}

// The second cells.
pub fn seconds(
    cells: usize,
    faces: usize,
    part: u64,
    labels: &[u64],
    firsts: &[u64],
    seconds: &[u64],
    out: &mut [u64],
) -> usize
    requires { JoinedFaces cells faces labels.now firsts.now seconds.now × (faces ≤ length out.old) }
    ensures value { result ≡ count faces (touching_at labels.now part firsts.now seconds.now) }
    ensures out_after { out.new ≡ over (picked faces (touching_at labels.now part firsts.now seconds.now)
        (new_second_at labels.now part firsts.now seconds.now)) out.old }
{
    let mut table = [0u64; ENDS];
    numbers(cells, part, labels, &mut table);
    faces::seconds(faces, part, labels, &table, firsts, seconds, out)
}

// The outside values.
pub fn outsides(
    cells: usize,
    faces: usize,
    part: u64,
    labels: &[u64],
    volumes: &[u64],
    masses: &[u64],
    releases: &[u64],
    firsts: &[u64],
    seconds: &[u64],
    amounts: &[i64],
    values: &[u64],
    out: &mut [u64],
) -> usize
    requires joined_faces { JoinedFaces cells faces labels.now firsts.now seconds.now × (faces ≤ length out.old) }
    requires cells_good { CellsGood cells volumes.now masses.now releases.now }
    requires faces_in_bounds { (faces ≤ length values.now) × (faces ≤ length amounts.now) × ((f : ℕ) → f < faces → size (get_or amounts.now f (pos 0)) < 2 ^ 63) }
    ensures value { result ≡ count faces (touching_at labels.now part firsts.now seconds.now) }
    ensures out_after { out.new ≡ over (picked faces (touching_at labels.now part firsts.now seconds.now)
        (new_outside_at labels.now part firsts.now seconds.now
        (rounded volumes.now (raised cells masses.now releases.now)) amounts.now values.now))
        out.old }
{
    let mut table = [0u64; ENDS];
    concentrations(cells, volumes, masses, releases, &mut table);
    faces::outsides(
        faces, part, labels, &table, firsts, seconds, amounts, values, out,
    )
}
