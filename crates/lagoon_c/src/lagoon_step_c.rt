// The calls of lagoon_step.
ghost use Rattle.lagoon.specs.Host.{HostPromise};

// The step on a mesh, a field and a step record; the next field record goes into `next`.
#[unsafe(no_mangle)]
pub extern "C" fn lagoon_step(mesh: &[u8], field: &[u8], step: &[u8], next: &mut [u8]) -> u64
    ensures { HostPromise mesh.now field.now step.now next.old result next.new }
{
    lagoon_step::lagoon_step(mesh, field, step, next)
}
