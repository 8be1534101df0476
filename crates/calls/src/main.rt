// Every exported call of the engine, made as a script on standard input asks, and a line printed for each. docs/CALLS.md describes the script.
#![tactic(auto)]

mod call;

use call::Call;
use calls_arguments::{BYTES_ROOM, WORDS, parts, show};
use calls_numerals::Number;
use calls_script::faults::Fault;
use calls_script::input::Script;
use calls_script::{input, wants};

// Each call that is lent tables stands in a frame of its own, by `inline(never)`, so that the stack holds the tables of one call at a time.
fn make(rt: &HostRuntime, call: Call, words: &[u64], ints: &[i64], bytes: &[u8]) {
    match call {
        Call::CountsWithin => calls_tables::counts_within(rt, words),
        Call::CheckMesh => calls_tables::check_mesh(rt, words),
        Call::CheckField => calls_tables::check_field(rt, words),
        Call::CheckCells => calls_tables::check_cells(rt, words),
        Call::CheckStep => calls_tables::check_step(rt, words, ints),
        Call::Total => calls_tables::total(rt, words),
        Call::Step => calls_tables::step(rt, words, ints),
        Call::MeshLength => calls_records::mesh_length(rt, words, bytes),
        Call::FieldLength => calls_records::field_length(rt, words, bytes),
        Call::StepLength => calls_records::step_length(rt, words, bytes),
        Call::ReadMesh => calls_records::read_mesh(rt, words, bytes),
        Call::ReadField => calls_records::read_field(rt, words, bytes),
        Call::ReadStep => calls_records::read_step(rt, words, ints, bytes),
        Call::WriteMesh => calls_records::write_mesh(rt, words),
        Call::WriteField => calls_records::write_field(rt, words),
        Call::WriteStep => calls_records::write_step(rt, words, ints),
        Call::NumberAt => calls_records::number_at(rt, words, bytes),
        Call::Board => calls_tables::board(rt, words),
        Call::LagoonStep => calls_taking::lagoon_step(rt, words, bytes),
        Call::TakeMesh => calls_taking::take_mesh(rt, words, bytes),
        Call::TakeField => calls_taking::take_field(rt, words, bytes),
        Call::TakeStep => calls_taking::take_step(rt, words, bytes),
        Call::Page => calls_fields::page(rt, words),
        Call::Keep => calls_fields::keep(rt, words),
        Call::Drop => calls_fields::drop(rt, words),
        Call::GiveBack => calls_fields::give_back(rt, words),
        Call::MiddleStage => calls_points::middle_stage(rt, words),
        Call::FaceShare => calls_points::face_share(rt, words),
        Call::PlainStep => calls_tables::plain_step(rt, words, ints),
        Call::Judge => calls_tables::judge(rt, words, ints),
        Call::Cut => calls_cutting::cut(rt, words, ints),
        Call::Add => calls_periods::add(rt, words, ints),
        Call::Charge => calls_periods::charge(rt, words),
        Call::PublicPage => calls_fields::public_page(rt, words),
        Call::PublicBoard => calls_fields::public_board(rt, words),
    }
    show::word(rt, b"\n");
}

// A call made on its words, which stand for signed numbers and for bytes too.
fn made(rt: &HostRuntime, call: Call, words: &[u64]) {
    let mut ints = [0i64; WORDS];
    let mut octets = [0u8; WORDS];
    parts::signed_numbers(words, &mut ints);
    parts::bytes(words, &mut octets);
    make(rt, call, words, &ints, &octets);
}

fn named(n: Number) -> Result<Call, Fault> {
    if n.minus {
        return Err(Fault::Sign);
    }
    Call::try_from(n.size)
}

// Calls, one after another, to the end of the input or to the first fault. The turns are counted because a proved loop has to end.
fn calls(rt: &HostRuntime, words: &mut [u64], script: &mut Script) -> Result<(), Fault> {
    for _ in 0..u64::MAX {
        let Some(n) = script.next(rt)? else { break };
        let call = named(n)?;
        wants::arguments(rt, call.kinds(), words, script)?;
        made(rt, call, words);
    }
    Ok(())
}

fn main(rt: HostRuntime) {
    let mut chunk = [0u8; BYTES_ROOM];
    let mut words = [0u64; WORDS];
    let mut script = Script {
        chunk: &mut chunk,
        input: input::start(),
    };
    if let Err(fault) = calls(&rt, &mut words, &mut script) {
        script.bad(&rt, fault);
    }
}
