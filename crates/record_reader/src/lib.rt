// A reader holds the record and the bit that it has come to; its few functions leave the work to `number_at`, which takes a plain slice.
#![tactic(auto)]

ghost use Rattle.std.specs.Prelude.{◌≡◌, ◌+◌, ◌^◌, ◌<◌};
ghost use Rattle.record_reader.specs.Numbers.{number_at};

// No record of document 01 has as many bits; up to here no sum of a bit and a width wraps.
pub const FURTHEST: usize = 4294967296;

#[derive(Clone, Copy)]
pub struct Reader<'a> {
    pub bytes: &'a [u8],
    pub bit: usize,
}

// The number that a field of these bytes spells, where it lies within them.
pub fn number_at(bytes: &[u8], bit: usize, width: usize) -> Option<u64>
    ensures { result ≡ number_at bytes.now bit width }
{
    if record_bits::WIDEST < width {
        return None;
    }
    if FURTHEST < bit {
        return None;
    }
    if bytes.len() < record_bits::bytes_for(bit + width) {
        return None;
    }
    Some(record_bits::read_bits(bytes, bit, width))
}

// A reader that has come to the record's first bit.
pub fn new<'a>(bytes: &'a [u8]) -> Reader<'a>
    ensures { (result.bytes ≡ bytes.entry) × (result.bit ≡ 0) }
{
    Reader { bytes, bit: 0 }
}

// The reader moved on, past a field of this width.
pub fn moved<'a>(r: Reader<'a>, width: usize) -> Reader<'a>
    requires { r.bit + width < 2 ^ 64 }
    ensures { (result.bytes ≡ r.entry.bytes) × (result.bit ≡ r.entry.bit + width) }
{
    Reader {
        bytes: r.bytes,
        bit: r.bit + width,
    }
}

// The number that the field here spells.
pub fn number<'a>(r: Reader<'a>, width: usize) -> Option<u64>
    ensures { result ≡ number_at r.entry.bytes.now r.entry.bit width }
{
    number_at(r.bytes, r.bit, width)
}

// The number that the field after so many bits spells: heads are read so, and no caller holds a reader.
pub fn number_after(bytes: &[u8], before: usize, width: usize) -> Option<u64>
    ensures { result ≡ number_at bytes.now before width }
{
    number(moved(new(bytes), before), width)
}
