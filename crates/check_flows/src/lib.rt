// Causes 9 and 10: the inflow and the outflow of each cell, gathered in arrays of their own.
#![tactic(auto)]

ghost use Rattle.std.specs.Prelude.{◌≡◌, cond, ◌+◌, ◌≤◌, eqb, leb, length, get_or};
ghost use Rattle.lists.specs.Table.{table};
ghost use Rattle.model.specs.Mesh.{max_cells, max_faces};
ghost use Rattle.model.specs.Causes.{each};
ghost use Rattle.model.specs.Answers.{said};
ghost use Rattle.check_flows.specs.Flows.{inflow as inflow_of, outflow as outflow_of, FacesFit, LongEnough, flows_verdict};

use lists::raise;
use model::{Cause, ENDS, Refusal};
use signed::{is_negative_at, size_at};

// The end of a face that the water reaches.
pub fn receiver(negative: bool, first: u64, second: u64) -> u64
    ensures { result ≡ cond negative first second }
{
    if negative {
        return first;
    }
    second
}

// The end of a face that the water leaves.
pub fn giver(negative: bool, first: u64, second: u64) -> u64
    ensures { result ≡ cond negative second first }
{
    if negative {
        return second;
    }
    first
}

// What each face lets into one end and out of the other.
pub fn gather(
    faces: usize,
    firsts: &[u64],
    seconds: &[u64],
    fluxes: &[i64],
    inflow: &mut [u64],
    outflow: &mut [u64],
)
    requires faces_le_max_faces { (faces ≤ max_faces)
        × (faces ≤ length firsts.now)
        × (faces ≤ length seconds.now)
        × (faces ≤ length fluxes.now) }
    requires faces_fit { FacesFit faces firsts.now seconds.now fluxes.now }
    requires inflow_value { (inflow.old ≡ table (max_cells + 1) (λ c. 0)) × (outflow.old ≡ table (max_cells + 1) (λ c. 0)) }
    ensures { (inflow.new ≡ table (max_cells + 1) (inflow_of faces firsts.now seconds.now fluxes.now))
        × (outflow.new ≡ table (max_cells + 1) (outflow_of faces firsts.now seconds.now fluxes.now)) }
{
    for f in 0..faces {
        let negative = is_negative_at(fluxes, f);
        let size = size_at(fluxes, f);
        let first = firsts[f];
        let second = seconds[f];
        raise(inflow, receiver(negative, first, second) as usize, size);
        raise(outflow, giver(negative, first, second) as usize, size);
    }
}

// Cause 9.
pub fn balanced(cells: usize, inflow: &[u64], outflow: &[u64]) -> Result<(), Refusal>
    requires { (cells ≤ length inflow.now) × (cells ≤ length outflow.now) }
    ensures { said result ≡ each 9 cells (λ c. eqb (get_or inflow.now c 0) (get_or outflow.now c 0)) }
{
    for c in 0..cells {
        if inflow[c] != outflow[c] {
            return Err(Refusal {
                cause: Cause::Balance,
                place: c as u64,
            });
        }
    }
    Ok(())
}

// Cause 10.
pub fn outflow_fits(cells: usize, volumes: &[u64], outflow: &[u64]) -> Result<(), Refusal>
    requires { (cells ≤ length volumes.now) × (cells ≤ length outflow.now) }
    ensures { said result ≡ each 10 cells (λ c. leb (get_or outflow.now c 0) (get_or volumes.now c 0)) }
{
    for c in 0..cells {
        if volumes[c] < outflow[c] {
            return Err(Refusal {
                cause: Cause::Outflow,
                place: c as u64,
            });
        }
    }
    Ok(())
}

// Causes 9 and 10 in their order, on arrays of zeros.
pub fn values_in(
    cells: usize,
    faces: usize,
    volumes: &[u64],
    firsts: &[u64],
    seconds: &[u64],
    fluxes: &[i64],
    inflow: &mut [u64],
    outflow: &mut [u64],
) -> Result<(), Refusal>
    requires long_enough { LongEnough faces firsts.now seconds.now fluxes.now cells volumes.now }
    requires faces_fit { FacesFit faces firsts.now seconds.now fluxes.now }
    requires inflow_value { (inflow.old ≡ table (max_cells + 1) (λ c. 0)) × (outflow.old ≡ table (max_cells + 1) (λ c. 0)) }
    ensures { said result ≡ flows_verdict faces firsts.now seconds.now fluxes.now cells volumes.now }
{
    gather(faces, firsts, seconds, fluxes, inflow, outflow);
    balanced(cells, inflow, outflow)?;
    outflow_fits(cells, volumes, outflow)
}

// The same: the arrays are this function's own, so that no lent table is written.
pub fn values(
    cells: usize,
    faces: usize,
    volumes: &[u64],
    firsts: &[u64],
    seconds: &[u64],
    fluxes: &[i64],
) -> Result<(), Refusal>
    requires long_enough { LongEnough faces firsts.now seconds.now fluxes.now cells volumes.now }
    requires faces_fit { FacesFit faces firsts.now seconds.now fluxes.now }
    ensures { said result ≡ flows_verdict faces firsts.now seconds.now fluxes.now cells volumes.now }
{
    let mut inflow = [0u64; ENDS];
    let mut outflow = [0u64; ENDS];
    values_in(
        cells,
        faces,
        volumes,
        firsts,
        seconds,
        fluxes,
        &mut inflow,
        &mut outflow,
    )
}
