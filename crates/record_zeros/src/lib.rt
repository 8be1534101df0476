// Cause 12: zero bits that are set, and a minus with size 0. Only the bits that can break the rule are looked at, in the order of their places.
#![tactic(auto)]

ghost use Rattle.std.specs.Prelude.{◌≡◌, ◌+◌, ◌*◌, ◌^◌, ◌≤◌, ◌<◌, not, ◌&&◌, length, eqb};
ghost use Rattle.model.specs.Causes.{each, refused as refused_as};
ghost use Rattle.model.specs.Answers.{said};
ghost use Rattle.record_bits.specs.Field.{bits_at};
ghost use Rattle.record_layouts.specs.Layouts.{mesh_zero_bits, step_zero_bits, mesh_head_bits, step_head_bits, sign_bits};
ghost use Rattle.record_zeros.specs.Zeros.{zero_bit_good, minus_zero};
ghost use Rattle.record_zeros.specs.Scans.{FirstSet, NoMinus, FirstMinus, one_of_three};

use model::needs::need;
use model::{Cause, Refusal};
use record_layouts::body::Body;
use record_layouts::lengths;

// The first bit set from `from` on, or `to`.
fn first_set(bytes: &[u8], from: usize, to: usize) -> usize
    requires { (from ≤ to) × (to ≤ 8 * length bytes.now) × (to < 2 ^ 64) }
    ensures { FirstSet bytes.now from to result }
{
    for i in from..to {
        if record_bits::read_bits(bytes, i, 1) == 1 {
            return i;
        }
    }
    to
}

// Whether the sign at a place is a minus of size 0: of both as one number only the sign's bit is set.
fn minus_zero(bytes: &[u8], at: usize, value: usize) -> bool
    requires { (at + (sign_bits + value) ≤ 8 * length bytes.now) × (at + (sign_bits + value) < 2 ^ 64) × (value ≤ 16) }
    ensures { result ≡ (eqb (bits_at bytes.now at sign_bits) 1 && eqb (bits_at bytes.now (at + sign_bits) value) 0) }
{
    record_bits::read_bits(bytes, at, Body::SIGN + value) == record_bits::pow2(value)
}

// Whether one of three signs and sizes, read as one number, is a minus of size 0.
fn minus_in_three(codes: u64, value: usize) -> bool
    requires { value ≤ 16 }
    ensures { result ≡ one_of_three codes (sign_bits + value) (2 ^ value) }
{
    let flux = Body::SIGN + value;
    let minus = record_bits::pow2(value);
    if record_bits::part(codes, 2 * flux, flux) == minus {
        return true;
    }
    if record_bits::part(codes, flux, flux) == minus {
        return true;
    }
    record_bits::part(codes, 0, flux) == minus
}

// Faces, three at a time, as far as none of the three has a minus and size 0.
fn plain_threes(bytes: &[u8], faces: usize, value: usize) -> usize
    requires { (step_head_bits + faces * (sign_bits + value) ≤ 8 * length bytes.now) × (8 * length bytes.now < 2 ^ 64) × (value ≤ 16) }
    ensures { (result ≤ faces) × NoMinus bytes.now value faces result }
{
    let flux = Body::SIGN + value;
    let mut f = 0;
    // a while: it steps by three, and where it stops is the answer
    while f + 2 < faces {
        let codes = record_bits::read_bits(bytes, 8 * lengths::STEP_HEAD + f * flux, 3 * flux);
        if minus_in_three(codes, value) {
            return f;
        }
        f += 3;
    }
    f
}

// The first face with a minus and size 0, or `faces`.
fn first_minus(bytes: &[u8], faces: usize, value: usize) -> usize
    requires { (step_head_bits + faces * (sign_bits + value) ≤ 8 * length bytes.now) × (8 * length bytes.now < 2 ^ 64) × (value ≤ 16) }
    ensures { FirstMinus bytes.now value faces result }
{
    let flux = Body::SIGN + value;
    let plain = plain_threes(bytes, faces, value);
    for f in plain..faces {
        if minus_zero(bytes, 8 * lengths::STEP_HEAD + f * flux, value) {
            return f;
        }
    }
    faces
}

fn refused(place: usize) -> Result<(), Refusal>
    ensures { said result ≡ refused_as 12 place }
{
    need(Cause::Bit, place as u64, false)
}

// The fields end at `end`.
pub fn mesh(bytes: &[u8], end: usize) -> Result<(), Refusal>
    requires { (8 * length bytes.now < 2 ^ 64) × (mesh_head_bits ≤ end) × (end ≤ 8 * length bytes.now) }
    ensures { said result ≡ each 12 (8 * length bytes.now) (zero_bit_good bytes.now mesh_zero_bits mesh_head_bits end) }
{
    let head = 8 * lengths::MESH_HEAD;
    let a = first_set(bytes, head - record_layouts::MESH_ZEROS, head);
    if a < head {
        return refused(a);
    }
    let all = 8 * bytes.len();
    let b = first_set(bytes, end, all);
    if b < all {
        return refused(b);
    }
    Ok(())
}

// A size has so many bits.
pub fn step(bytes: &[u8], faces: usize, end: usize, value: usize) -> Result<(), Refusal>
    requires { (8 * length bytes.now < 2 ^ 64) × (step_head_bits + faces * (sign_bits + value) ≤ end) × (end ≤ 8 * length bytes.now) × (value ≤ 16) }
    ensures { said result ≡ each 12 (8 * length bytes.now)
        (λ i. zero_bit_good bytes.now step_zero_bits step_head_bits end i && not (minus_zero bytes.now value faces i)) }
{
    let head = 8 * lengths::STEP_HEAD;
    let a = first_set(bytes, head - record_layouts::STEP_ZEROS, head);
    if a < head {
        return refused(a);
    }
    let m = first_minus(bytes, faces, value);
    if m < faces {
        return refused(head + m * (Body::SIGN + value));
    }
    let all = 8 * bytes.len();
    let pad = first_set(bytes, end, all);
    if pad < all {
        return refused(pad);
    }
    Ok(())
}
