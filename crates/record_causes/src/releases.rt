// Cause 18 of a writer: a release that its field does not hold.
ghost use Rattle.std.specs.Prelude.{◌≡◌, ◌≤◌, ◌^◌, length, get_or};
ghost use Rattle.model.specs.Causes.{each};
ghost use Rattle.model.specs.Answers.{said};
ghost use Rattle.record_layouts.specs.Layouts.{kind_number, mass_width};
ghost use Rattle.record_causes.specs.Verdicts.{release_fits};

use model::{Cause, Refusal};
use record_layouts::body::Body;
use record_layouts::{StepKind, Width};

// The first release that a field of the kind with outfalls does not hold, narrow and wide.
const NARROW_END: u64 = 1 << Body::NARROW_MASS;

const WIDE_END: u64 = 1 << Body::WIDE_MASS;

fn release_end(width: Width) -> u64
    ensures { result ≡ 2 ^ mass_width width }
{
    match width {
        Width::Narrow => NARROW_END,
        Width::Wide => WIDE_END,
    }
}

// Whether a record of this kind holds a release.
fn release_fits(width: Width, kind: StepKind, release: u64) -> bool
    ensures { result ≡ release_fits (kind_number width kind) release }
{
    match kind {
        StepKind::Water => release == 0,
        StepKind::Outfalls => release < release_end(width),
    }
}

pub fn values(width: Width, kind: StepKind, cells: usize, releases: &[u64]) -> Result<(), Refusal>
    requires { cells ≤ length releases.now }
    ensures { said result ≡ each 18 cells (λ c. release_fits (kind_number width kind) (get_or releases.now c 0)) }
{
    for c in 0..cells {
        if !release_fits(width, kind, releases[c]) {
            return Err(Refusal {
                cause: Cause::Release,
                place: c as u64,
            });
        }
    }
    Ok(())
}
