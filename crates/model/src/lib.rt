// What calls answer, and the numbers that document 01 sets.
#![tactic(auto)]

pub mod needs;
pub mod positions;

ghost use Rattle.std.specs.Prelude.{◌≡◌, ◌≤◌};
ghost use Rattle.model.specs.Mesh.{max_cells, max_faces};
ghost use Rattle.model.specs.Causes.{work_entries};
ghost use Rattle.model.specs.Answers.{number as number_of};

// Most cells and faces of a mesh.
pub const MAX_CELLS: usize = 4095;

pub const MAX_FACES: usize = 8190;

// Most cells and faces that the run and the host's call take.
pub const RUN_CELLS: usize = 1023;

pub const RUN_FACES: usize = 2046;

// Entries of the work table for such a mesh.
pub const RUN_WORK: usize = 4 * RUN_CELLS + RUN_FACES;

// The mark in the place of a second cell: beyond the face is the rim.
pub const RIM: u64 = 4095;

// Entries for each cell and one at that mark: in a table so long a rim face needs no case of its own.
pub const ENDS: usize = MAX_CELLS + 1;

// The ceiling of volumes, of reaches and of the sizes of fluxes over the rim; and the one that records of the old kinds hold.
pub const CEILING: u64 = 65535;

pub const OLD_CEILING: u64 = 4095;

// Largest share.
pub const MAX_SHARE: u64 = 255;

pub const MAX_CONCENTRATION: u64 = 1000000;

// Why a call is refused, in the order of the papers' numbers: document 01's 1 to 13, then those that document 02's requests add.
#[derive(Clone, Copy)]
pub enum Cause {
    Limits,
    Table,
    Volume,
    Ends,
    Spacing,
    Concentration,
    Outside,
    Flux,
    Balance,
    Outflow,
    Length,
    Bit,
    Head,
    Page,
    Name,
    Room,
    Unkept,
    Release,
    Coordinate,
    Ratio,
    Moved,
    Bounds,
    Label,
    Part,
    Bands,
    Period,
    Mark,
}

#[derive(Clone, Copy)]
pub struct Refusal {
    pub cause: Cause,
    pub place: u64,
}

// What is printed of an accepted step.
#[derive(Clone, Copy)]
pub struct Printed {
    pub entered: u64,
    pub gone: u64,
    pub total: u64,
    pub released: u64,
}

// The papers' number of a cause.
pub fn number(cause: Cause) -> u64
    ensures { result ≡ number_of cause }
{
    match cause {
        Cause::Limits => 1,
        Cause::Table => 2,
        Cause::Volume => 3,
        Cause::Ends => 4,
        Cause::Spacing => 5,
        Cause::Concentration => 6,
        Cause::Outside => 7,
        Cause::Flux => 8,
        Cause::Balance => 9,
        Cause::Outflow => 10,
        Cause::Length => 11,
        Cause::Bit => 12,
        Cause::Head => 13,
        Cause::Page => 14,
        Cause::Name => 15,
        Cause::Room => 16,
        Cause::Unkept => 17,
        Cause::Release => 18,
        Cause::Coordinate => 19,
        Cause::Ratio => 20,
        Cause::Moved => 21,
        Cause::Bounds => 22,
        Cause::Label => 23,
        Cause::Part => 24,
        Cause::Bands => 25,
        Cause::Period => 26,
        Cause::Mark => 27,
    }
}

// Entries of the work table.
pub fn work_length(cells: usize, faces: usize) -> usize
    requires { (cells ≤ max_cells) × (faces ≤ max_faces) }
    ensures { result ≡ work_entries cells faces }
{
    4 * cells + faces
}
