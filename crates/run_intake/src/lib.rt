// Records read from standard input: a head, and then as many bytes as it asks for. Steps are read ahead, as many bytes at once as come.
#![tactic(auto)]

ghost use Rattle.std.specs.Prelude.{◌≡◌, true, ◌+◌, ◌-◌, ◌≤◌, ◌<◌, length, take};
ghost use Rattle.io.specs.Counts.{IsPrefixLen};
ghost use Rattle.model.specs.Mesh.{run_cells, run_faces};
ghost use Rattle.record_bits.specs.Layout.{bytes_for};
ghost use Rattle.record_layouts.specs.Layouts.{mesh_head_bits, field_head_bits, step_head_bits};
ghost use Rattle.record_heads.specs.Heads.{length_said, mesh_length_said, bytes_of, mesh_needs, field_needs, step_needs};
ghost use Rattle.run_intake.specs.Intake.{record_bytes, still_needed, Asked, held, HeldAhead, held_anew, SomeTaken, RecordTaken};

use model::{RUN_CELLS, RUN_FACES, Refusal};
use record_heads::MeshLength;
use record_layouts::body::Body;
use record_layouts::{FIELD_HEAD, MESH_HEAD, STEP_HEAD, Width};
use std::io::Read;

// Most bits of a face in a step record: one at the rim, in the wide kinds.
const RIM_FACE: usize = Body::SIGN + Body::WIDE_VALUE + Body::OUTSIDE;

// Bytes of the longest record within the run's limits, a wide step of all cells and faces. `still_needed` holds it to the layout.
pub const RECORD: usize = STEP_HEAD + (RUN_FACES * RIM_FACE + RUN_CELLS * Body::WIDE_MASS + 7) / 8;

// How many bytes of a record have come, and whether a read failed, which is not the end of the input.
#[derive(Clone, Copy)]
pub struct Got {
    pub count: usize,
    pub failed: bool,
}

// One read into buffer[at..to], and a word where it fails. Answers where the bytes end. It may wait, so that no line is unwritten then.
fn once(rt: &HostRuntime, buffer: &mut [u8], at: usize, to: usize, unwritten: usize) -> Got
    requires { (at ≤ to) × (to ≤ length buffer.old) × (unwritten ≡ 0) }
    ensures { (at ≤ result.count) × (result.count ≤ to) × (take at buffer.new ≡ take at buffer.old) }
{
    match rt.stdin().read(&mut buffer[at..to]) {
        Ok(more) => Got {
            count: at + more,
            failed: false,
        },
        Err(error) => {
            run_session::fail(rt, "run: standard input", error);
            Got {
                count: at,
                failed: true,
            }
        }
    }
}

// Bytes read into buffer[from..to], until they reach `enough` or there are none. Answers where they end.
fn bytes(
    rt: &HostRuntime,
    buffer: &mut [u8],
    from: usize,
    enough: usize,
    to: usize,
    unwritten: usize,
) -> Got
    requires { (from ≤ to) × (enough ≤ to) × (to ≤ length buffer.old) × (unwritten ≡ 0) }
    ensures { IsPrefixLen result.count buffer.new × (from ≤ result.count) × (result.count ≤ to)
        × (take from buffer.new ≡ take from buffer.old) × (result.failed ≡ true → result.count < enough) }
{
    let mut at = from;
    // a while: a turn reads as many bytes as have come, not one
    while at < enough {
        let got = once(rt, buffer, at, to, unwritten);
        let end = got.count;
        if end == at {
            return got;
        }
        at = end;
    }
    Got {
        count: at,
        failed: false,
    }
}

// How many bytes of a record are still to be read, of which so many have come.
fn still_needed(answer: Result<usize, Refusal>, got: usize) -> usize
    ensures { (result ≡ still_needed (length_said answer) got) × (got ≤ record_bytes → got + result ≤ record_bytes) }
{
    let Ok(needed) = answer else {
        return 0;
    };
    let end = lists::least(needed, RECORD);
    if end < got {
        return 0;
    }
    end - got
}

// What is left of a record of which `got` bytes have come. Answers how many have come then.
fn rest(rt: &HostRuntime, answer: Result<usize, Refusal>, got: usize, buffer: &mut [u8]) -> Got
    requires { (got ≤ RECORD) × (RECORD ≤ length buffer.old) }
    ensures { IsPrefixLen result.count buffer.new × (got ≤ result.count) × (result.count ≤ got + still_needed (length_said answer) got)
        × (take got buffer.new ≡ take got buffer.old) }
{
    let more = still_needed(answer, got);
    let end = got + more;
    bytes(rt, buffer, got, end, end, 0)
}

// Of what the head of a mesh says, the bytes alone.
fn bytes_alone(answer: Result<MeshLength, Refusal>) -> Result<usize, Refusal>
    ensures { length_said result ≡ bytes_of (mesh_length_said answer) }
{
    let length = answer?;
    Ok(length.bytes)
}

pub fn mesh(rt: &HostRuntime, buffer: &mut [u8]) -> Got
    requires { RECORD ≤ length buffer.old }
    ensures { IsPrefixLen result.count buffer.new × Asked (bytes_for mesh_head_bits) (mesh_needs run_cells run_faces) buffer.new result.count }
{
    let head = bytes(rt, buffer, 0, MESH_HEAD, MESH_HEAD, 0);
    if head.failed {
        return head;
    }
    let got = head.count;
    let answer = bytes_alone(record_heads::mesh_length(RUN_CELLS, RUN_FACES, &buffer[..got]));
    rest(rt, answer, got, buffer)
}

pub fn field(rt: &HostRuntime, width: Width, cells: usize, buffer: &mut [u8]) -> Got
    requires { RECORD ≤ length buffer.old }
    ensures { IsPrefixLen result.count buffer.new × Asked (bytes_for field_head_bits) (field_needs width cells) buffer.new result.count }
{
    let head = bytes(rt, buffer, 0, FIELD_HEAD, FIELD_HEAD, 0);
    if head.failed {
        return head;
    }
    let got = head.count;
    let answer = record_heads::field_length(width, cells, &buffer[..got]);
    rest(rt, answer, got, buffer)
}

// What has come and is not yet taken, buffer[from..to], of which buffer[from..end] was asked for; how many bytes of the lines are not yet
// written; and whether a read or a write failed.
#[derive(Clone, Copy)]
pub struct Held {
    pub from: usize,
    pub end: usize,
    pub to: usize,
    pub unwritten: usize,
    pub failed: bool,
}

// What is held, moved to the front.
fn move_down(buffer: &mut [u8], from: usize, to: usize)
    requires { (from ≤ to) × (to ≤ length buffer.old) }
    ensures { take (to - from) buffer.new ≡ held buffer.old from to }
{
    buffer.copy_within(from..to, 0);
}

// What is held after a read: all that has come, from the front on. No line is unwritten then.
fn all_come(wanted: usize, got: Got) -> Held
    ensures { result ≡ held_anew wanted got.count got.failed }
{
    let come = got.count;
    Held {
        from: 0,
        end: lists::least(wanted, come),
        to: come,
        unwritten: 0,
        failed: got.failed,
    }
}

// So many bytes of what is held, or all where no more come. A read may wait, so that the lines are written before it.
fn hold(
    rt: &HostRuntime,
    wanted: usize,
    buffer: &mut [u8],
    from: usize,
    to: usize,
    lines: &[u8],
    unwritten: usize,
) -> Held
    requires { (from ≤ to) × (to ≤ length buffer.old) × (wanted ≤ length buffer.old) × (unwritten ≤ length lines.now) }
    ensures { HeldAhead buffer.old from to unwritten buffer.new result
        × SomeTaken wanted buffer.old from to unwritten buffer.new result }
{
    let kept = to - from;
    if wanted <= kept {
        return Held {
            from: from,
            end: from + wanted,
            to: to,
            unwritten: unwritten,
            failed: false,
        };
    }
    let left = run_session::flush(rt, lines, unwritten);
    if left.failed {
        return Held {
            from: from,
            end: to,
            to: to,
            unwritten: left.count,
            failed: true,
        };
    }
    move_down(buffer, from, to);
    let got = bytes(rt, buffer, kept, wanted, buffer.len(), left.count);
    all_come(wanted, got)
}

// A step record among what is held: its head, and then as many bytes as that asks for.
pub fn step(
    rt: &HostRuntime,
    width: Width,
    cells: usize,
    faces: usize,
    seconds: &[u64],
    buffer: &mut [u8],
    from: usize,
    to: usize,
    lines: &[u8],
    unwritten: usize,
) -> Held
    requires { (from ≤ to) × (to ≤ length buffer.old) × (RECORD ≤ length buffer.old) × (unwritten ≤ length lines.now) }
    ensures { HeldAhead buffer.old from to unwritten buffer.new result
        × RecordTaken (bytes_for step_head_bits) (step_needs width cells faces seconds.now) buffer.old from to unwritten
        buffer.new result }
{
    let head = hold(rt, STEP_HEAD, buffer, from, to, lines, unwritten);
    if head.failed {
        return head;
    }
    let start = head.from;
    let end = head.end;
    let answer = record_heads::step_length(width, cells, faces, seconds, &buffer[start..end]);
    let got = end - start;
    let all = got + still_needed(answer, got);
    hold(rt, all, buffer, start, head.to, lines, head.unwritten)
}
