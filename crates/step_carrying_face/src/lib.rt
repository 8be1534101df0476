// Stages 1 to 3 of document 01 at one face: what it carries, its correction, and the bounds of its cells.
#![tactic(auto)]

ghost use Rattle.std.specs.Prelude.{◌≡◌, true, false, cond, ◌≢◌, ◌*◌};
ghost use Rattle.signed.specs.Sign.{size as size_of, with_sign};
ghost use Rattle.model.specs.Mesh.{rim};
ghost use Rattle.step_carrying_face.specs.OneFace.{carried_by, FaceAsks, FaceDone};

use step_cell::widen;
use step_face::correction::correction_code;
use step_face::exchange::{gain, lose, pass};
use step_face::upwind::upwind;

// Water comes in over the rim: what it carries, which its cell gains, and what the cell meets. There is no correction.
pub fn come_in(
    f: usize,
    first: u64,
    size: u64,
    a: u64,
    outside: u64,
    cells: usize,
    next: &mut [u64],
    moved: &mut [i64],
    work: &mut [u64],
) -> u64
    requires { FaceAsks f first rim size 0 0 a outside cells (with_sign true (size * outside)) next.old moved.old work.old × (size ≢ 0) }
    ensures { FaceDone f first rim 0 0 a outside cells result (with_sign true size) (with_sign true (size * outside))
        next.old next.new moved.old moved.new work.old work.new }
{
    let amount = size * outside;
    signed::put(moved, f, true, amount);
    gain(next, first, amount);
    widen(work, first as usize, outside);
    work[4 * cells + f] = 0;
    amount
}

// Water goes out over the rim, or stays: what it carries, which its cell loses.
pub fn go_out(
    f: usize,
    first: u64,
    size: u64,
    a: u64,
    outside: u64,
    cells: usize,
    next: &mut [u64],
    moved: &mut [i64],
    work: &mut [u64],
) -> u64
    requires { FaceAsks f first rim size 0 0 a outside cells (with_sign false (size * a)) next.old moved.old work.old }
    ensures { FaceDone f first rim 0 0 a outside cells result (with_sign false size) (with_sign false (size * a))
        next.old next.new moved.old moved.new work.old work.new }
{
    let amount = size * a;
    signed::put(moved, f, false, amount);
    lose(next, first, amount);
    work[4 * cells + f] = 0;
    amount
}

// One face of the second pass at the rim.
pub fn carry_rim(
    f: usize,
    first: u64,
    negative: bool,
    size: u64,
    a: u64,
    outside: u64,
    cells: usize,
    next: &mut [u64],
    moved: &mut [i64],
    work: &mut [u64],
) -> u64
    requires face_asks { FaceAsks f first rim size 0 0 a outside cells (with_sign negative (size * cond negative outside a)) next.old moved.old work.old }
    requires size_nonzero { negative ≡ true → size ≢ 0 }
    ensures { FaceDone f first rim 0 0 a outside cells result (with_sign negative size) (with_sign negative (size * cond negative outside a))
        next.old next.new moved.old moved.new work.old work.new }
{
    if negative {
        return come_in(f, first, size, a, outside, cells, next, moved, work);
    }
    go_out(f, first, size, a, outside, cells, next, moved, work)
}

// One face of the second pass inside, with water: what it carries, what its cells meet across it, and its correction.
pub fn carry_wet(
    f: usize,
    first: u64,
    second: u64,
    flux: i64,
    share: u64,
    reach: u64,
    a: u64,
    b: u64,
    cells: usize,
    next: &mut [u64],
    moved: &mut [i64],
    work: &mut [u64],
)
    requires face_asks { FaceAsks f first second (size_of flux) share reach a b cells (carried_by flux a b) next.old moved.old work.old }
    requires second_nonzero { (second ≢ rim) × (size_of flux ≢ 0) }
    ensures { FaceDone f first second share reach a b cells (size_of (carried_by flux a b)) flux (carried_by flux a b)
        next.old next.new moved.old moved.new work.old work.new }
{
    widen(work, first as usize, b);
    widen(work, second as usize, a);
    let carried = signed::times(flux, upwind(signed::is_negative(flux), a, b));
    moved[f] = carried;
    pass(next, first, second, carried);
    let code = correction_code(flux, a, b, share, reach);
    work[4 * cells + f] = code;
}

// One face of the second pass inside. Through a still face nothing passes, and its cells do not meet.
pub fn carry_inside(
    f: usize,
    first: u64,
    second: u64,
    flux: i64,
    share: u64,
    reach: u64,
    a: u64,
    b: u64,
    cells: usize,
    next: &mut [u64],
    moved: &mut [i64],
    work: &mut [u64],
)
    requires face_asks { FaceAsks f first second (size_of flux) share reach a b cells (carried_by flux a b) next.old moved.old work.old }
    requires second_nonzero { second ≢ rim }
    ensures { FaceDone f first second share reach a b cells (size_of (carried_by flux a b)) flux (carried_by flux a b)
        next.old next.new moved.old moved.new work.old work.new }
{
    if flux == 0 {
        moved[f] = 0;
        work[4 * cells + f] = 0;
        return;
    }
    carry_wet(
        f, first, second, flux, share, reach, a, b, cells, next, moved, work,
    );
}
