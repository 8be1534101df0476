// The calls of host_crossing.
ghost use Rattle.std.specs.Prelude.{◌≡◌};
ghost use Rattle.host_answer.specs.Number.{number_of};
ghost use Rattle.host_answer.specs.Found.{Answered};
ghost use Rattle.host_tested.specs.Tested.{step_tested};
ghost use Rattle.host_record_promises.specs.Crossing.{step_found, crossed_in};

// What the step on records answers where there is room for the next field.
#[unsafe(no_mangle)]
pub extern "C" fn lagoon_check(mesh: &[u8], field: &[u8], step: &[u8]) -> u64
    ensures { result ≡ number_of (step_tested mesh.now field.now step.now) }
{
    host_crossing::lagoon_check(mesh, field, step)
}

// In-mass, out-mass and released mass of the step.
#[unsafe(no_mangle)]
pub extern "C" fn lagoon_crossing(mesh: &[u8], field: &[u8], step: &[u8], found: &mut [u64]) -> u64
    ensures { Answered crossed_in (step_found mesh.now field.now step.now) found.old result found.new }
{
    host_crossing::lagoon_crossing(mesh, field, step, found)
}
