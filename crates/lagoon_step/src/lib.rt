// The step on records, for a host program in C.
#![tactic(auto)]

mod chain;

ghost use Rattle.lagoon.specs.Host.{HostPromise};

use host_numbers::answer_number;

// The step on a mesh, a field and a step record; the next field record goes into `next`.
#[unsafe(no_mangle)]
pub extern "C" fn lagoon_step(mesh: &[u8], field: &[u8], step: &[u8], next: &mut [u8]) -> u64
    ensures { HostPromise mesh.now field.now step.now next.old result next.new }
{
    let answer = chain::on_records(mesh, field, step, next);
    answer_number(answer)
}
