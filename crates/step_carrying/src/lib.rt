// Stages 1 to 3 of document 01 by faces: what each carries, its correction, and the bounds of its cells.
#![tactic(auto)]

ghost use Rattle.std.specs.Prelude.{◌≡◌, ◌<◌, ◌+◌, ◌*◌, length};
ghost use Rattle.model.specs.Mesh.{max_cells};
ghost use Rattle.step_cell.specs.Work.{of_cell};
ghost use Rattle.step_carrying.specs.Carrying.{step_through, AtFace, CarriedFrom};

use model::RIM;
use step_carrying_face::{carry_inside, carry_rim};
use step_cell::Q;
use step_face::upwind::{entered, gone};

// What the water has carried over the rim: the in-mass and the out-mass.
#[derive(Clone, Copy)]
pub struct Carried {
    pub entered: u64,
    pub gone: u64,
}

// A cell's concentration before the step.
pub fn concentration(work: &[u64], c: u64) -> u64
    requires { (4 * c + 3 < length work.now) × (c < max_cells) }
    ensures { result ≡ of_cell work.now c 0 }
{
    work[4 * (c as usize) + Q]
}

// A turn of the second pass: face f.
fn carry_turn(
    f: usize,
    cells: usize,
    faces: usize,
    firsts: &[u64],
    seconds: &[u64],
    shares: &[u64],
    reaches: &[u64],
    fluxes: &[i64],
    outsides: &[u64],
    next: &mut [u64],
    moved: &mut [i64],
    work: &mut [u64],
    so_far: Carried,
) -> Carried
    requires f_lt_faces { f < faces }
    requires at_face { AtFace (step_through cells faces firsts.now seconds.now shares.now reaches.now fluxes.now outsides.now)
        f so_far.entered so_far.gone next.old moved.old work.old }
    ensures { CarriedFrom (step_through cells faces firsts.now seconds.now shares.now reaches.now
        fluxes.now outsides.now)
        f so_far.entered so_far.gone next.old moved.old work.old
        (f + 1) result.entered result.gone next.new moved.new work.new }
{
    let first = firsts[f];
    let second = seconds[f];
    let a = concentration(work, first);
    if second == RIM {
        let negative = signed::is_negative_at(fluxes, f);
        let size = signed::size_at(fluxes, f);
        let amount = carry_rim(
            f,
            first,
            negative,
            size,
            a,
            outsides[f],
            cells,
            next,
            moved,
            work,
        );
        let more_in = entered(negative, amount);
        let more_out = gone(negative, amount);
        return Carried {
            entered: so_far.entered + more_in,
            gone: so_far.gone + more_out,
        };
    }
    let b = concentration(work, second);
    let share = shares[f];
    let reach = reaches[f];
    let flux = fluxes[f];
    carry_inside(
        f, first, second, flux, share, reach, a, b, cells, next, moved, work,
    );
    so_far
}

// Second pass, on the concentrations in work and the masses in next.
pub fn carry(
    cells: usize,
    faces: usize,
    firsts: &[u64],
    seconds: &[u64],
    shares: &[u64],
    reaches: &[u64],
    fluxes: &[i64],
    outsides: &[u64],
    next: &mut [u64],
    moved: &mut [i64],
    work: &mut [u64],
) -> Carried
    requires { AtFace (step_through cells faces firsts.now seconds.now shares.now reaches.now fluxes.now outsides.now)
        0 0 0 next.old moved.old work.old }
    ensures { CarriedFrom (step_through cells faces firsts.now seconds.now shares.now reaches.now
        fluxes.now outsides.now)
        0 0 0 next.old moved.old work.old
        faces result.entered result.gone next.new moved.new work.new }
{
    let mut so_far = Carried {
        entered: 0,
        gone: 0,
    };
    for f in 0..faces {
        so_far = carry_turn(
            f, cells, faces, firsts, seconds, shares, reaches, fluxes, outsides, next, moved, work,
            so_far,
        );
    }
    so_far
}
