// The three records of document 01: where each field stands and how long a record is. A step record is of one of two kinds, by document 02's
// S-6, and each record of one of two widths, by S-10.
#![tactic(auto)]

pub mod body;
pub mod lengths;

ghost use Rattle.std.specs.Prelude.{◌≡◌, ◌≤◌};
ghost use Rattle.record_layouts.specs.Layouts.{of_width, kind_number};

pub use lengths::{FIELD_HEAD, MESH_HEAD, STEP_HEAD};

// The widths of a head's fields.
pub const KIND: usize = 4;

pub const CELLS: usize = 12;

pub const FACES: usize = 13;

// The zero bits that end a head.
pub const MESH_ZEROS: usize = 3;

pub const STEP_ZEROS: usize = 15;

// The kinds of the narrow records; the wide ones are four more.
pub const MESH_KIND: u64 = 1;

pub const FIELD_KIND: u64 = 2;

pub const WATER_KIND: u64 = 3;

pub const OUTFALL_KIND: u64 = 4;

pub const WIDER: u64 = 4;

// The width of the records: that of a mesh fixes that of those after it.
#[derive(Clone, Copy)]
pub enum Width {
    Narrow,
    Wide,
}

// The kind of a step record: the water alone, or with what outfalls release into the cells.
#[derive(Clone, Copy)]
pub enum StepKind {
    Water,
    Outfalls,
}

// The kind of a width, by that of the narrow record.
pub fn of_width(width: Width, kind: u64) -> u64
    requires { kind ≤ 4 }
    ensures { result ≡ of_width width kind }
{
    match width {
        Width::Narrow => kind,
        Width::Wide => WIDER + kind,
    }
}

// The number that a step's head says for a kind.
pub fn kind_number(width: Width, kind: StepKind) -> u64
    ensures { result ≡ kind_number width kind }
{
    match kind {
        StepKind::Water => of_width(width, WATER_KIND),
        StepKind::Outfalls => of_width(width, OUTFALL_KIND),
    }
}
