// The calls of host_plain.
ghost use Rattle.host_record_promises.specs.Plain.{PlainPromise};

// The plain step on a mesh, a field and a step record; the next field record goes into `next`.
#[unsafe(no_mangle)]
pub extern "C" fn lagoon_plain_step(mesh: &[u8], field: &[u8], step: &[u8], next: &mut [u8]) -> u64
    ensures { PlainPromise mesh.now field.now step.now next.old result next.new }
{
    host_plain::lagoon_plain_step(mesh, field, step, next)
}
