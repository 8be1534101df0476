// Packed fields of a record, read and written by whole bytes.
#![tactic(auto)]

ghost use Rattle.std.specs.Prelude.{◌≡◌, ◌≤◌, ◌<◌, ◌+◌, ◌*◌, ◌^◌, ◌/◌, ◌%◌, length};
ghost use Rattle.record_bits.specs.Field.{bits_at};
ghost use Rattle.record_bits.specs.Layout.{bytes_for};
ghost use Rattle.record_bits.specs.Put.{Put};
ghost use Rattle.record_bits.specs.Mixed.{mixed};

use lists::least;

// The widest field: with it no shift and no sum below leaves 64 bits.
pub const WIDEST: usize = 40;

// So many bits, from any bit on, lie within eight bytes: several fields of a row can be read as one.
pub const HELD: usize = 57;

fn wide(x: u8) -> u64
    ensures { result ≡ x }
{
    x as u64
}

// Whole bytes for so many bits.
pub fn bytes_for(n: usize) -> usize
    requires { n + 7 < 2 ^ 64 }
    ensures { result ≡ bytes_for n }
{
    (n + 7) / 8
}

// 2^k.
pub fn pow2(k: usize) -> u64
    requires { k < 64 }
    ensures { result ≡ 2 ^ k }
{
    1u64 << k
}

// The k bytes from byte `first` on as one number, and the next one behind them.
fn joined(src: &[u8], first: usize, k: usize, v: u64) -> u64
    requires { (first + k < length src.now) × (first + k < 2 ^ 64) × (k < 8) × (v ≡ bits_at src.now (first * 8) (k * 8)) }
    ensures { result ≡ bits_at src.now (first * 8) ((k + 1) * 8) }
{
    256 * v + wide(src[first + k])
}

// Eight bytes as one number: a processor reads them at once.
fn eight(src: &[u8], first: usize) -> u64
    requires { (first + 8 ≤ length src.now) × (first + 8 < 2 ^ 64) }
    ensures { result ≡ bits_at src.now (first * 8) 64 }
{
    let one = joined(src, first, 0, 0);
    let two = joined(src, first, 1, one);
    let three = joined(src, first, 2, two);
    let four = joined(src, first, 3, three);
    let five = joined(src, first, 4, four);
    let six = joined(src, first, 5, five);
    let seven = joined(src, first, 6, six);
    joined(src, first, 7, seven)
}

// Of a number, the field of width bits above its lowest `below`.
pub fn part(v: u64, below: usize, width: usize) -> u64
    requires { (below < 64) × (width < 64) }
    ensures { result ≡ v / 2 ^ below % 2 ^ width }
{
    let rest = v >> below;
    rest % pow2(width)
}

// The field of width bits at a bit position: of the eight bytes that end with its last one, as one number, the field's bits; or, near the
// start, of the bytes that it touches.
pub fn read_bits(src: &[u8], at: usize, width: usize) -> u64
    requires { (at + width ≤ 8 * length src.now) × (at + width < 2 ^ 64) × (width ≤ HELD) }
    ensures { result ≡ bits_at src.now at width }
{
    if width == 0 {
        return 0;
    }
    let end = at + width - 1;
    let last = end / 8;
    let below = 7 - end % 8;
    if 7 <= last {
        return part(eight(src, last - 7), below, width);
    }
    let first = at / 8;
    let bytes = last + 1 - first;
    let mut v: u64 = 0;
    let mut k = 0;
    // a while: S-3 asks for the number that falls, the `decreases-loop` of this function's proof
    while k < bytes {
        v = joined(src, first, k, v);
        k += 1;
    }
    part(v, below, width)
}

// A byte with v in the k bits above its lowest e.
fn mix(x: u8, e: usize, k: usize, v: u64) -> u8
    requires { (k + e ≤ 8) × (v < 2 ^ k) }
    ensures { result ≡ mixed x e k v }
{
    if k == 8 {
        return v as u8;
    }
    let w = wide(x);
    let top = pow2(k + e);
    let m = pow2(e);
    let y = w / top * top + (v * m + w % m);
    y as u8
}

// The field of k bits at p, which lies in one byte, written.
fn put_piece(dst: &mut [u8], p: usize, k: usize, v: u64)
    requires { (p / 8 < length dst.old) × (p % 8 + k ≤ 8) × (v < 2 ^ k) }
    ensures { Put dst.old p k v dst.new }
{
    let i = p / 8;
    let x = dst[i];
    dst[i] = mix(x, 8 - p % 8 - k, k, v);
}

// The field of width bits at a bit position, written a byte at a time.
pub fn write_bits(dst: &mut [u8], at: usize, width: usize, v: u64)
    requires { (at + width ≤ 8 * length dst.old) × (at + width < 2 ^ 64) × (width ≤ WIDEST) × (v < 2 ^ width) }
    ensures { Put dst.old at width v dst.new }
{
    let mut done = 0;
    // a while: a turn takes as many bits as are left of the byte, or of the field
    while done < width {
        let p = at + done;
        let n = least(8 - p % 8, width - done);
        let rest = v >> (width - done - n);
        put_piece(dst, p, n, rest % pow2(n));
        done += n;
    }
}
