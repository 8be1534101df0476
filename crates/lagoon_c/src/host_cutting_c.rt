// The calls of host_cutting.
ghost use Rattle.cutting_parts.specs.Cut.{tables_of, lagoon_of};
ghost use Rattle.host_parts.specs.Parts.{CutFromC};

// A lagoon cut along its labels.
#[unsafe(no_mangle)]
pub extern "C" fn lagoon_table_cut(
    cells: usize,
    faces: usize,
    volumes: &[u64],
    firsts: &[u64],
    seconds: &[u64],
    shares: &[u64],
    reaches: &[u64],
    masses: &[u64],
    fluxes: &[i64],
    outsides: &[u64],
    releases: &[u64],
    labels: &[u64],
    volumes0: &mut [u64],
    firsts0: &mut [u64],
    seconds0: &mut [u64],
    shares0: &mut [u64],
    reaches0: &mut [u64],
    masses0: &mut [u64],
    fluxes0: &mut [i64],
    outsides0: &mut [u64],
    releases0: &mut [u64],
    volumes1: &mut [u64],
    firsts1: &mut [u64],
    seconds1: &mut [u64],
    shares1: &mut [u64],
    reaches1: &mut [u64],
    masses1: &mut [u64],
    fluxes1: &mut [i64],
    outsides1: &mut [u64],
    releases1: &mut [u64],
    found: &mut [u64],
) -> u64
    ensures { CutFromC (lagoon_of cells faces (tables_of volumes.now firsts.now seconds.now shares.now
        reaches.now masses.now fluxes.now outsides.now releases.now)) labels.now
        (tables_of volumes0.old firsts0.old seconds0.old shares0.old reaches0.old masses0.old
        fluxes0.old outsides0.old releases0.old)
        (tables_of volumes1.old firsts1.old seconds1.old shares1.old reaches1.old masses1.old
        fluxes1.old outsides1.old releases1.old)
        found.old result
        (tables_of volumes0.new firsts0.new seconds0.new shares0.new reaches0.new masses0.new
        fluxes0.new outsides0.new releases0.new)
        (tables_of volumes1.new firsts1.new seconds1.new shares1.new reaches1.new masses1.new
        fluxes1.new outsides1.new releases1.new)
        found.new }
{
    host_cutting::lagoon_table_cut(
        cells, faces, volumes, firsts, seconds, shares, reaches, masses, fluxes, outsides,
        releases, labels, volumes0, firsts0, seconds0, shares0, reaches0, masses0, fluxes0,
        outsides0, releases0, volumes1, firsts1, seconds1, shares1, reaches1, masses1, fluxes1,
        outsides1, releases1, found,
    )
}
