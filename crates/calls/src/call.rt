// The calls that a script names by a number, and what each asks for.
use calls_script::faults::Fault;
use calls_script::wants::Kind;

#[derive(Clone, Copy, Debug, PartialEq, Eq)]
pub enum Call {
    CountsWithin,
    CheckMesh,
    CheckField,
    CheckCells,
    CheckStep,
    Total,
    Step,
    MeshLength,
    FieldLength,
    StepLength,
    ReadMesh,
    ReadField,
    ReadStep,
    WriteMesh,
    WriteField,
    WriteStep,
    NumberAt,
    Board,
    LagoonStep,
    TakeMesh,
    TakeField,
    TakeStep,
    Page,
    Keep,
    Drop,
    GiveBack,
    MiddleStage,
    FaceShare,
    PlainStep,
    Judge,
    Cut,
    Add,
    Charge,
    PublicPage,
    PublicBoard,
}

impl TryFrom<u64> for Call {
    type Error = Fault;

    fn try_from(number: u64) -> Result<Self, Fault> {
        match number {
            1 => Ok(Call::CountsWithin),
            2 => Ok(Call::CheckMesh),
            3 => Ok(Call::CheckField),
            4 => Ok(Call::CheckCells),
            5 => Ok(Call::CheckStep),
            6 => Ok(Call::Total),
            7 => Ok(Call::Step),
            8 => Ok(Call::MeshLength),
            9 => Ok(Call::FieldLength),
            10 => Ok(Call::StepLength),
            11 => Ok(Call::ReadMesh),
            12 => Ok(Call::ReadField),
            13 => Ok(Call::ReadStep),
            14 => Ok(Call::WriteMesh),
            15 => Ok(Call::WriteField),
            16 => Ok(Call::WriteStep),
            17 => Ok(Call::NumberAt),
            18 => Ok(Call::Board),
            19 => Ok(Call::LagoonStep),
            20 => Ok(Call::TakeMesh),
            21 => Ok(Call::TakeField),
            22 => Ok(Call::TakeStep),
            23 => Ok(Call::Page),
            24 => Ok(Call::Keep),
            25 => Ok(Call::Drop),
            26 => Ok(Call::GiveBack),
            27 => Ok(Call::MiddleStage),
            28 => Ok(Call::FaceShare),
            29 => Ok(Call::PlainStep),
            30 => Ok(Call::Judge),
            31 => Ok(Call::Cut),
            32 => Ok(Call::Add),
            33 => Ok(Call::Charge),
            34 => Ok(Call::PublicPage),
            35 => Ok(Call::PublicBoard),
            _ => Err(Fault::NoCall),
        }
    }
}

// The kinds of arguments by their letters in docs/CALLS.md.
const N: Kind = Kind::Number;

const T: Kind = Kind::Table;

const S: Kind = Kind::Amounts;

const B: Kind = Kind::Bytes;

const P: Kind = Kind::PartTable;

const Q: Kind = Kind::PartAmounts;

impl Call {
    // The arguments of a call, from the left.
    pub fn kinds(self) -> &'static [Kind] {
        match self {
            Call::CountsWithin => &[N, N, N, N],
            Call::CheckMesh => &[N, N, T, T, T, T, T],
            Call::CheckField => &[N, N, T, T, T, T, T, T],
            Call::CheckCells | Call::Total | Call::Board => &[N, T, T],
            Call::CheckStep | Call::Step | Call::PlainStep => &[
                N, N, T, T, T, T, T, T, S, T, T, S, T, T,
            ],
            Call::Judge => &[N, N, T, T, T, T, T, T, S, T, T, S, T],
            Call::Cut => &[
                N, N, T, T, T, T, T, T, S, T, T, T, P, P, P, P, P, P, Q, P, P, P, P, P, P, P, P, Q,
                P, P,
            ],
            Call::MeshLength | Call::FieldLength => &[N, N, B],
            Call::StepLength => &[N, N, N, T, B],
            Call::ReadMesh => &[N, N, B, T, T, T, T, T],
            Call::ReadField => &[N, N, B, T],
            Call::ReadStep => &[N, N, N, T, B, S, T, T],
            Call::WriteMesh => &[N, N, N, T, T, T, T, T, B],
            Call::WriteField => &[N, N, N, T, T, T, T, T, T, B],
            Call::WriteStep => &[N, N, N, N, T, T, T, T, T, S, T, B, T],
            Call::NumberAt => &[B, N, N],
            Call::LagoonStep => &[B, B, B, B],
            Call::TakeMesh => &[B, T, T, T, T, T],
            Call::TakeField => &[N, N, B, T, T],
            Call::TakeStep => &[N, N, N, B, T, T, T, T, T, T],
            Call::Page => &[N, T, T, N, B],
            Call::Keep | Call::GiveBack => &[N, T, T, T, N],
            Call::Drop => &[N, T, N],
            Call::MiddleStage | Call::FaceShare => &[N, N, N, N, N, N, N, N],
            Call::Add => &[N, T, S, T],
            Call::Charge => &[N, N, T, T, N],
            Call::PublicPage => &[N, T, T, N, B, T],
            Call::PublicBoard => &[N, T, T, T],
        }
    }
}
