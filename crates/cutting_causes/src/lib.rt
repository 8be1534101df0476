// What cutting refuses: counts and lengths, the mesh, labels and parts, then salt and water.
#![tactic(auto)]

ghost use Rattle.std.specs.Prelude.{◌≡◌, [], ◌∷◌, ◌≤◌, leb, length, get_or};
ghost use Rattle.model.specs.Mesh.{mesh_of};
ghost use Rattle.model.specs.Causes.{◌and_then◌, in_turn, each, water_of};
ghost use Rattle.model.specs.Accepted.{StepLent};
ghost use Rattle.model.specs.Answers.{said};
ghost use Rattle.lists.specs.Marked.{count};
ghost use Rattle.cutting_pieces.specs.Pieces.{has_label};
ghost use Rattle.cutting_parts.specs.Cut.{tables_of, lagoon_of};
ghost use Rattle.cutting_causes.specs.Lengths.{three, lengths_found, values_found};

use cutting_pieces::cells::{count_cells, labels_good};
use model::needs::{and_then, long, need};
use model::{Cause, Refusal, positions};

// The three tables of one position: the whole's and the parts'.
fn all_long(position: u64, wanted: usize, a: usize, b: usize, c: usize) -> Result<(), Refusal>
    ensures { said result ≡ three position wanted a b c }
{
    long(position, wanted, a)?;
    long(position, wanted, b)?;
    long(position, wanted, c)
}

// Causes 1 and 2, of the lengths by their positions: volumes, firsts, seconds, shares, reaches, masses, fluxes, outsides, releases, labels.
pub fn lengths(
    cells: usize,
    faces: usize,
    v: usize,
    v0: usize,
    v1: usize,
    f: usize,
    f0: usize,
    f1: usize,
    s: usize,
    s0: usize,
    s1: usize,
    h: usize,
    h0: usize,
    h1: usize,
    k: usize,
    k0: usize,
    k1: usize,
    m: usize,
    m0: usize,
    m1: usize,
    u: usize,
    u0: usize,
    u1: usize,
    o: usize,
    o0: usize,
    o1: usize,
    r: usize,
    r0: usize,
    r1: usize,
    labels: usize,
) -> Result<(), Refusal>
    ensures { said result ≡ lengths_found cells faces v v0 v1 f f0 f1 s s0 s1 h h0 h1 k k0 k1 m m0 m1 u u0 u1 o o0 o1 r r0 r1 labels }
{
    check_lent::counts_within(model::MAX_CELLS, model::MAX_FACES, cells, faces)?;
    all_long(positions::VOLUMES, cells, v, v0, v1)?;
    all_long(positions::FIRSTS, faces, f, f0, f1)?;
    all_long(positions::SECONDS, faces, s, s0, s1)?;
    all_long(positions::SHARES, faces, h, h0, h1)?;
    all_long(positions::REACHES, faces, k, k0, k1)?;
    all_long(positions::MASSES, cells, m, m0, m1)?;
    all_long(positions::FLUXES, faces, u, u0, u1)?;
    all_long(positions::OUTSIDES, faces, o, o0, o1)?;
    all_long(positions::RELEASES, cells, r, r0, r1)?;
    long(positions::LABELS, cells, labels)
}

// Causes 23 and 24.
pub fn labels_fit(cells: usize, labels: &[u64]) -> Result<(), Refusal>
    requires { cells ≤ length labels.now }
    ensures { said result ≡ in_turn (each 23 cells (λ c. leb (get_or labels.now c 0) 1)
        ∷ each 24 2 (λ p. leb 1 (count cells (has_label labels.now p))) ∷ []) }
{
    labels_good(cells, labels)?;
    need(Cause::Part, 0, 1 <= count_cells(cells, 0, labels))?;
    need(Cause::Part, 1, 1 <= count_cells(cells, 1, labels))
}

// All causes of values, of tables that are long enough.
pub fn values(
    cells: usize,
    faces: usize,
    volumes: &[u64],
    firsts: &[u64],
    seconds: &[u64],
    shares: &[u64],
    reaches: &[u64],
    masses: &[u64],
    fluxes: &[i64],
    outsides: &[u64],
    releases: &[u64],
    labels: &[u64],
) -> Result<(), Refusal>
    requires { StepLent (mesh_of cells faces volumes.now firsts.now seconds.now shares.now reaches.now) masses.now
        (water_of fluxes.now outsides.now releases.now) × (cells ≤ length labels.now) }
    ensures { said result ≡ values_found (lagoon_of cells faces
        (tables_of volumes.now firsts.now seconds.now shares.now reaches.now masses.now
        fluxes.now outsides.now releases.now)) labels.now }
{
    let mesh = check_mesh::values(
        cells,
        faces,
        volumes,
        firsts,
        seconds,
        shares,
        reaches,
        model::CEILING,
    );
    // by `and_then`, so that the two tests exchanged are refused by what they answer, and not for a name of a place where the call leaves
    and_then(mesh, labels_fit(cells, labels))?;
    checks::step_values(
        cells, faces, volumes, firsts, seconds, shares, reaches, masses, fluxes, outsides, releases,
    )
}

// All causes of a cutting, of the whole's tables and of the lengths of those lent for the parts.
pub fn verdict(
    cells: usize,
    faces: usize,
    volumes: &[u64],
    firsts: &[u64],
    seconds: &[u64],
    shares: &[u64],
    reaches: &[u64],
    masses: &[u64],
    fluxes: &[i64],
    outsides: &[u64],
    releases: &[u64],
    labels: &[u64],
    v0: usize,
    v1: usize,
    f0: usize,
    f1: usize,
    s0: usize,
    s1: usize,
    h0: usize,
    h1: usize,
    k0: usize,
    k1: usize,
    m0: usize,
    m1: usize,
    u0: usize,
    u1: usize,
    o0: usize,
    o1: usize,
    r0: usize,
    r1: usize,
) -> Result<(), Refusal>
    ensures { said result ≡ (lengths_found cells faces (length volumes.now) v0 v1 (length firsts.now) f0 f1
        (length seconds.now) s0 s1 (length shares.now) h0 h1 (length reaches.now) k0 k1 (length masses.now) m0 m1
        (length fluxes.now) u0 u1 (length outsides.now) o0 o1 (length releases.now) r0 r1 (length labels.now)
        and_then values_found (lagoon_of cells faces (tables_of volumes.now firsts.now seconds.now shares.now
        reaches.now masses.now fluxes.now outsides.now releases.now)) labels.now) }
{
    lengths(
        cells,
        faces,
        volumes.len(),
        v0,
        v1,
        firsts.len(),
        f0,
        f1,
        seconds.len(),
        s0,
        s1,
        shares.len(),
        h0,
        h1,
        reaches.len(),
        k0,
        k1,
        masses.len(),
        m0,
        m1,
        fluxes.len(),
        u0,
        u1,
        outsides.len(),
        o0,
        o1,
        releases.len(),
        r0,
        r1,
        labels.len(),
    )?;
    values(
        cells, faces, volumes, firsts, seconds, shares, reaches, masses, fluxes, outsides,
        releases, labels,
    )
}
