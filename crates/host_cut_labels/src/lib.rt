// The labels of a mesh's cells, beside its record: judged after the mesh and before all else.
#![tactic(auto)]

ghost use Rattle.std.specs.Prelude.{◌≡◌};
ghost use Rattle.model.specs.Answers.{said};
ghost use Rattle.host_cut_promises.specs.Cut.{labels_find, labelled};

use cutting_causes::labels_fit;
use model::needs::long;
use model::{RUN_CELLS, RUN_FACES, Refusal, positions};

// Labels of so many cells.
fn labels_of(cells: usize, labels: &[u64]) -> Result<(), Refusal>
    ensures { said result ≡ labels_find cells labels.now }
{
    long(positions::LABELS, cells, labels.len())?;
    labels_fit(cells, labels)
}

// The mesh, then its labels.
pub fn labels_found(mesh: &[u8], labels: &[u64]) -> Result<(), Refusal>
    ensures { said result ≡ labelled mesh.now labels.now }
{
    let mut volumes = [0u64; RUN_CELLS];
    let mut firsts = [0u64; RUN_FACES];
    let mut seconds = [0u64; RUN_FACES];
    let mut shares = [0u64; RUN_FACES];
    let mut reaches = [0u64; RUN_FACES];
    let counts = taking_mesh::take_mesh(
        mesh,
        &mut volumes,
        &mut firsts,
        &mut seconds,
        &mut shares,
        &mut reaches,
    )?;
    labels_of(counts.cells, labels)
}
