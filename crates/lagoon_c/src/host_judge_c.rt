// The calls of host_judge.
ghost use Rattle.host_record_promises.specs.Judge.{JudgedFromC};

// Another model's step on a mesh, a field and a step record; the next field record goes into `next`.
#[unsafe(no_mangle)]
pub extern "C" fn lagoon_judge(
    mesh: &[u8],
    field: &[u8],
    step: &[u8],
    claim: &[i64],
    next: &mut [u8],
    found: &mut [u64],
) -> u64
    ensures { JudgedFromC mesh.now field.now step.now claim.now next.old found.old result
        next.new found.new }
{
    host_judge::lagoon_judge(mesh, field, step, claim, next, found)
}
