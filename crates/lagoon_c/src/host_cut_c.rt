// The calls of host_cut.
ghost use Rattle.host_cut_promises.specs.Cut.{records_of, CutFromC};

// A lagoon in three records cut along its labels: mesh, field and step of part 0, then of part 1.
#[unsafe(no_mangle)]
pub extern "C" fn lagoon_cut(
    mesh: &[u8],
    field: &[u8],
    step: &[u8],
    labels: &[u64],
    mesh0: &mut [u8],
    field0: &mut [u8],
    step0: &mut [u8],
    mesh1: &mut [u8],
    field1: &mut [u8],
    step1: &mut [u8],
    found: &mut [u64],
) -> u64
    ensures { CutFromC mesh.now field.now step.now labels.now
        (records_of mesh0.old field0.old step0.old)
        (records_of mesh1.old field1.old step1.old) found.old result
        (records_of mesh0.new field0.new step0.new)
        (records_of mesh1.new field1.new step1.new) found.new }
{
    host_cut::lagoon_cut(
        mesh, field, step, labels, mesh0, field0, step0, mesh1, field1, step1, found,
    )
}
