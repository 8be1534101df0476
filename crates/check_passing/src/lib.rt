// Whether no face is refused by 4, 5, 7 or 8, and no cell by 9 or 10: one reading of the faces and one of the cells serve all.
// What is refused, and where, is told by the crates of the causes.
#![tactic(auto)]

ghost use Rattle.std.specs.Prelude.{◌≡◌, ◌≢◌, true, cond, ℕ, ◌*◌, ◌≤◌, ◌<◌, length, get_or};
ghost use Rattle.model.specs.Mesh.{rim, max_cells, max_faces, max_concentration, ceiling};
ghost use Rattle.check_passing.specs.Passing.{half, EndsIn, ShapeFine, WaterFine, FaceFine, FacesShaped, FacesFine, SumFits, RoomLeft, Counted, SumsAre, TablesLong, FacesPass};

use lists::raise;
use model::needs::between;
use signed::{is_negative_at, size_at};

// An entry holds the outflow times this, and the inflow, which is less.
const HALF: u64 = 4294967296;

// Causes 4 and 5 of a face at the rim.
fn rim_shaped(cells: u64, first: u64, share: u64, reach: u64) -> bool
    requires { cells ≤ max_cells }
    ensures { result ≡ true → ShapeFine cells first rim share reach }
{
    if cells <= first {
        return false;
    }
    if share != 0 {
        return false;
    }
    if reach != 0 {
        return false;
    }
    true
}

// Causes 4 and 5 of a face inside.
fn inside_shaped(cells: u64, first: u64, second: u64, share: u64, reach: u64) -> bool
    requires { second ≢ rim }
    ensures { result ≡ true → ShapeFine cells first second share reach }
{
    if cells <= second {
        return false;
    }
    if cells <= first {
        return false;
    }
    if first == second {
        return false;
    }
    if !between(1, model::MAX_SHARE, share) {
        return false;
    }
    if !between(1, model::CEILING, reach) {
        return false;
    }
    true
}

// Causes 4 and 5 of one face, unless the mesh is known to be accepted.
fn shaped(known: bool, cells: u64, first: u64, second: u64, share: u64, reach: u64) -> bool
    requires { (cells ≤ max_cells) × (known ≡ true → ShapeFine cells first second share reach) }
    ensures { result ≡ true → ShapeFine cells first second share reach }
{
    if known {
        return true;
    }
    if second == model::RIM {
        return rim_shaped(cells, first, share, reach);
    }
    inside_shaped(cells, first, second, share, reach)
}

// The largest outside value of a rim face.
fn most_outside(inward: bool) -> u64
    ensures { result ≡ cond inward max_concentration 0 }
{
    if inward { model::MAX_CONCENTRATION } else { 0 }
}

// What a rim face adds to its cell's entry.
fn over_rim(inward: bool, size: u64) -> u64
    requires { size ≤ ceiling }
    ensures { result ≡ cond inward size (half * size) }
{
    if inward { size } else { HALF * size }
}

// One of two ends.
fn end_of(back: bool, first: u64, second: u64) -> u64
    ensures { result ≡ cond back first second }
{
    if back { first } else { second }
}

// Causes 7 and 8 of a face at the rim.
fn rim_watered(inward: bool, size: u64, outside: u64) -> bool
    ensures passes { result ≡ true → WaterFine rim 0 inward size outside }
    ensures accepts { WaterFine rim 0 inward size outside → result ≡ true }
{
    if model::CEILING < size {
        return false;
    }
    outside <= most_outside(inward)
}

// Causes 7 and 8 of one face.
fn watered(second: u64, reach: u64, inward: bool, size: u64, outside: u64) -> bool
    ensures passes { result ≡ true → WaterFine second reach inward size outside }
    ensures accepts { WaterFine second reach inward size outside → result ≡ true }
{
    if second == model::RIM {
        return rim_watered(inward, size, outside);
    }
    if reach < size {
        return false;
    }
    outside == 0
}

// A face's flux counted: at the cell that the water reaches, and at the one that it leaves.
fn count_flux(cells: u64, first: u64, second: u64, inward: bool, size: u64, sums: &mut [u64])
    requires ends_in { EndsIn cells first second × (cells ≤ max_cells) × (size ≤ ceiling) }
    requires cells_in_bounds { (cells ≤ length sums.old) × RoomLeft cells sums.old }
    ensures { Counted cells sums.old sums.new inward first second size }
{
    if second == model::RIM {
        raise(sums, first as usize, over_rim(inward, size));
        return;
    }
    let receiver = end_of(inward, first, second);
    let giver = end_of(inward, second, first);
    raise(sums, receiver as usize, size);
    raise(sums, giver as usize, HALF * size);
}

// A face tested and counted.
fn count_face(
    known: bool,
    cells: u64,
    first: u64,
    second: u64,
    share: u64,
    reach: u64,
    inward: bool,
    size: u64,
    outside: u64,
    sums: &mut [u64],
) -> bool
    requires cells_le_max_cells { (cells ≤ max_cells) × (cells ≤ length sums.old) × (known ≡ true → ShapeFine cells first second share reach) }
    requires room_left { RoomLeft cells sums.old }
    ensures { result ≡ true → FaceFine cells first second share reach inward size outside
        × Counted cells sums.old sums.new inward first second size }
{
    if !shaped(known, cells, first, second, share, reach) {
        return false;
    }
    if !watered(second, reach, inward, size, outside) {
        return false;
    }
    count_flux(cells, first, second, inward, size, sums);
    true
}

// The faces, with the sums of 9 and 10.
fn faces_fit(
    known: bool,
    cells: usize,
    faces: usize,
    firsts: &[u64],
    seconds: &[u64],
    shares: &[u64],
    reaches: &[u64],
    fluxes: &[i64],
    outsides: &[u64],
    sums: &mut [u64],
) -> bool
    requires cells_le_max_cells { (cells ≤ max_cells) × (faces ≤ max_faces) × (cells ≤ length sums.old) }
    requires tables_long { TablesLong faces firsts.now seconds.now shares.now reaches.now fluxes.now outsides.now }
    requires faces_shaped { known ≡ true → FacesShaped cells faces firsts.now seconds.now shares.now reaches.now }
    requires by_index { (c : ℕ) → c < cells → get_or sums.old c 0 ≡ 0 }
    ensures { result ≡ true
        → FacesFine cells faces firsts.now seconds.now shares.now reaches.now fluxes.now
        outsides.now
        × SumsAre cells faces firsts.now seconds.now fluxes.now sums.new }
{
    for f in 0..faces {
        let inward = is_negative_at(fluxes, f);
        let size = size_at(fluxes, f);
        if !count_face(
            known,
            cells as u64,
            firsts[f],
            seconds[f],
            shares[f],
            reaches[f],
            inward,
            size,
            outsides[f],
            sums,
        ) {
            return false;
        }
    }
    true
}

// One cell's sums: balanced, and what leaves within the volume.
fn sum_fits(volume: u64, both: u64) -> bool
    ensures { result ≡ true → SumFits volume both }
{
    let leaving = both / HALF;
    if both % HALF != leaving {
        return false;
    }
    if volume < leaving {
        return false;
    }
    true
}

// The cells' sums.
fn sums_fit(cells: usize, volumes: &[u64], sums: &[u64]) -> bool
    requires { (cells ≤ length volumes.now) × (cells ≤ length sums.now) }
    ensures { result ≡ true → (c : ℕ) → c < cells → SumFits (get_or volumes.now c 0) (get_or sums.now c 0) }
{
    for c in 0..cells {
        if !sum_fits(volumes[c], sums[c]) {
            return false;
        }
    }
    true
}

// No flux counted yet.
fn clear(cells: usize, sums: &mut [u64])
    requires { cells ≤ length sums.old }
    ensures { (c : ℕ) → c < cells → get_or sums.new c 0 ≡ 0 }
{
    sums[..cells].fill(0);
}

// Both, of a mesh that may be known to be accepted. The room is lent for the sums: what it holds is no matter, before or after.
pub fn pass(
    known: bool,
    cells: usize,
    faces: usize,
    volumes: &[u64],
    firsts: &[u64],
    seconds: &[u64],
    shares: &[u64],
    reaches: &[u64],
    fluxes: &[i64],
    outsides: &[u64],
    room: &mut [u64],
) -> bool
    requires cells_le_max_cells { (cells ≤ max_cells) × (faces ≤ max_faces) × (cells ≤ length volumes.now) × (cells ≤ length room.old) }
    requires tables_long { TablesLong faces firsts.now seconds.now shares.now reaches.now fluxes.now outsides.now }
    requires faces_shaped { known ≡ true → FacesShaped cells faces firsts.now seconds.now shares.now reaches.now }
    ensures { result ≡ true → FacesPass cells faces volumes.now firsts.now seconds.now shares.now
        reaches.now
        fluxes.now outsides.now }
{
    clear(cells, room);
    if !faces_fit(
        known, cells, faces, firsts, seconds, shares, reaches, fluxes, outsides, room,
    ) {
        return false;
    }
    sums_fit(cells, volumes, room)
}
