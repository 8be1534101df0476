// Document 02, S-12: one part of a lagoon, in tables of its own.
#![tactic(auto)]

ghost use Rattle.cutting_parts.specs.Cut.{tables_of, lagoon_of};
ghost use Rattle.cutting_tables.specs.Part.{Cuttable, PartFilled};

use cutting_faces::columns;
use cutting_faces::faces::spacings;
use cutting_pieces::by_cell;

// The cells and faces of one part.
#[derive(Clone, Copy)]
pub struct PartCounts {
    pub cells: usize,
    pub faces: usize,
}

// One part, cut out of tables that have passed every cause into those lent for it.
pub fn part(
    part: u64,
    cells: usize,
    faces: usize,
    volumes: &[u64],
    firsts: &[u64],
    seconds: &[u64],
    shares: &[u64],
    reaches: &[u64],
    masses: &[u64],
    fluxes: &[i64],
    outsides: &[u64],
    releases: &[u64],
    labels: &[u64],
    part_volumes: &mut [u64],
    part_firsts: &mut [u64],
    part_seconds: &mut [u64],
    part_shares: &mut [u64],
    part_reaches: &mut [u64],
    part_masses: &mut [u64],
    part_fluxes: &mut [i64],
    part_outsides: &mut [u64],
    part_releases: &mut [u64],
) -> PartCounts
    requires { Cuttable (lagoon_of cells faces (tables_of volumes.now firsts.now seconds.now shares.now reaches.now masses.now fluxes.now
        outsides.now releases.now)) labels.now
        (tables_of part_volumes.old part_firsts.old part_seconds.old part_shares.old part_reaches.old part_masses.old
        part_fluxes.old part_outsides.old part_releases.old) }
    ensures { PartFilled (lagoon_of cells faces (tables_of volumes.now firsts.now seconds.now shares.now
        reaches.now masses.now fluxes.now outsides.now releases.now)) labels.now part
        (tables_of part_volumes.old part_firsts.old part_seconds.old part_shares.old
        part_reaches.old part_masses.old part_fluxes.old part_outsides.old
        part_releases.old)
        result (tables_of part_volumes.new part_firsts.new part_seconds.new part_shares.new
        part_reaches.new part_masses.new part_fluxes.new part_outsides.new part_releases.new) }
{
    let own_cells = by_cell(cells, part, labels, volumes, part_volumes);
    by_cell(cells, part, labels, masses, part_masses);
    by_cell(cells, part, labels, releases, part_releases);
    let own_faces = columns::firsts(cells, faces, part, labels, firsts, seconds, part_firsts);
    columns::seconds(cells, faces, part, labels, firsts, seconds, part_seconds);
    spacings(faces, part, labels, firsts, seconds, shares, part_shares);
    spacings(faces, part, labels, firsts, seconds, reaches, part_reaches);
    cutting_faces::faces::fluxes(faces, part, labels, firsts, seconds, fluxes, part_fluxes);
    columns::outsides(
        cells,
        faces,
        part,
        labels,
        volumes,
        masses,
        releases,
        firsts,
        seconds,
        fluxes,
        outsides,
        part_outsides,
    );
    PartCounts {
        cells: own_cells,
        faces: own_faces,
    }
}
