// Document 02, S-12: a lagoon cut in two, each part in tables of its own.
#![tactic(auto)]

ghost use Rattle.cutting_parts.specs.Cut.{tables_of, lagoon_of};
ghost use Rattle.cutting.specs.Promise.{CutPromise};

use cutting_tables::part;
use model::Refusal;

// How many cells and faces each part has.
#[derive(Clone, Copy)]
pub struct Counts {
    pub cells_0: usize,
    pub faces_0: usize,
    pub cells_1: usize,
    pub faces_1: usize,
}

// A lagoon cut along its labels. The tables of each part are lent at the whole's counts; they stand first, since a lent table that is handed
// on costs the check by how many arguments stand before it.
pub fn cut(
    volumes0: &mut [u64],
    firsts0: &mut [u64],
    seconds0: &mut [u64],
    shares0: &mut [u64],
    reaches0: &mut [u64],
    masses0: &mut [u64],
    fluxes0: &mut [i64],
    outsides0: &mut [u64],
    releases0: &mut [u64],
    volumes1: &mut [u64],
    firsts1: &mut [u64],
    seconds1: &mut [u64],
    shares1: &mut [u64],
    reaches1: &mut [u64],
    masses1: &mut [u64],
    fluxes1: &mut [i64],
    outsides1: &mut [u64],
    releases1: &mut [u64],
    cells: usize,
    faces: usize,
    volumes: &[u64],
    firsts: &[u64],
    seconds: &[u64],
    shares: &[u64],
    reaches: &[u64],
    masses: &[u64],
    fluxes: &[i64],
    outsides: &[u64],
    releases: &[u64],
    labels: &[u64],
) -> Result<Counts, Refusal>
    ensures { CutPromise (lagoon_of cells faces (tables_of volumes.now firsts.now seconds.now shares.now
        reaches.now masses.now fluxes.now outsides.now releases.now)) labels.now
        (tables_of volumes0.old firsts0.old seconds0.old shares0.old reaches0.old masses0.old
        fluxes0.old outsides0.old releases0.old)
        (tables_of volumes1.old firsts1.old seconds1.old shares1.old reaches1.old masses1.old
        fluxes1.old outsides1.old releases1.old)
        result (tables_of volumes0.new firsts0.new seconds0.new shares0.new reaches0.new masses0.new
        fluxes0.new outsides0.new releases0.new)
        (tables_of volumes1.new firsts1.new seconds1.new shares1.new reaches1.new masses1.new
        fluxes1.new outsides1.new releases1.new) }
{
    cutting_causes::verdict(
        cells,
        faces,
        volumes,
        firsts,
        seconds,
        shares,
        reaches,
        masses,
        fluxes,
        outsides,
        releases,
        labels,
        volumes0.len(),
        volumes1.len(),
        firsts0.len(),
        firsts1.len(),
        seconds0.len(),
        seconds1.len(),
        shares0.len(),
        shares1.len(),
        reaches0.len(),
        reaches1.len(),
        masses0.len(),
        masses1.len(),
        fluxes0.len(),
        fluxes1.len(),
        outsides0.len(),
        outsides1.len(),
        releases0.len(),
        releases1.len(),
    )?;
    let part_0 = part(
        0, cells, faces, volumes, firsts, seconds, shares, reaches, masses, fluxes, outsides,
        releases, labels, volumes0, firsts0, seconds0, shares0, reaches0, masses0, fluxes0,
        outsides0, releases0,
    );
    let part_1 = part(
        1, cells, faces, volumes, firsts, seconds, shares, reaches, masses, fluxes, outsides,
        releases, labels, volumes1, firsts1, seconds1, shares1, reaches1, masses1, fluxes1,
        outsides1, releases1,
    );
    Ok(Counts {
        cells_0: part_0.cells,
        faces_0: part_0.faces,
        cells_1: part_1.cells,
        faces_1: part_1.faces,
    })
}
