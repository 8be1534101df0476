// Columns of packed records, read and written.
#![tactic(auto)]

ghost use Rattle.std.specs.Prelude.{◌≡◌, true, cond, ℕ, ◌+◌, ◌-◌, ◌*◌, ◌/◌, ◌%◌, ◌^◌, ◌≤◌, ◌<◌, eqb, pos, length, get_or, set};
ghost use Rattle.signed.specs.Sign.{is_negative, size as size_of, with_sign};
ghost use Rattle.lists.specs.Table.{table, over};
ghost use Rattle.record_bits.specs.declared.TheConstants.{HELD, WIDEST};
ghost use Rattle.record_bits.specs.Field.{bits_at};
ghost use Rattle.record_bits.specs.Put.{Put};
ghost use Rattle.record_bits.specs.Layout.{bytes_for};
ghost use Rattle.record_sections.specs.Columns.{PutIf, PutColumn};
ghost use Rattle.record_sections.specs.Codes.{coded};
ghost use Rattle.record_sections.specs.Sections.{marked, those};

use signed::{is_negative_at, size_at};

// What a row that is not there reads.
const ABSENT: u64 = 0;

// One field of each of n rows: entry i becomes the field of width bits at first + i * stride, and entries from n on stay.
pub fn read_column(
    bytes: &[u8],
    first: usize,
    stride: usize,
    width: usize,
    n: usize,
    out: &mut [u64],
)
    requires fact { (8 * length bytes.now < 2 ^ 64) × (width ≤ WIDEST) × (n ≤ length out.old) }
    requires by_index { (i : ℕ) → i < n → first + i * stride + width ≤ 8 * length bytes.now }
    ensures { out.new
        ≡ over (table n (λ i. bits_at bytes.now (first + i * stride) width)) out.old }
{
    for i in 0..n {
        out[i] = record_bits::read_bits(bytes, first + i * stride, width);
    }
}

// One field of each of n rows: the field of width bits at first + i * stride takes entry i.
pub fn put_column(
    bytes: &mut [u8],
    first: usize,
    stride: usize,
    width: usize,
    n: usize,
    values: &[u64],
)
    requires fact { (width ≤ WIDEST) × (width ≤ stride) × (n ≤ length values.now) }
    requires by_index { ((i : ℕ) → i < n
        → (first + i * stride + width ≤ 8 * length bytes.old)
        × (first + i * stride + width < 2 ^ 64))
        × ((i : ℕ) → i < n → get_or values.now i 0 < 2 ^ width) }
    ensures { PutColumn bytes.old n (λ _. true) (λ i. first + i * stride) width
        (λ i. get_or values.now i 0) bytes.new }
{
    for i in 0..n {
        record_bits::write_bits(bytes, first + i * stride, width, values[i]);
    }
}

// 1 is minus.
fn sign(negative: bool) -> u64
    ensures { result ≡ cond negative 1 0 }
{
    if negative { 1 } else { 0 }
}

// The signs of n entries: the bit at first + i * stride takes that of entry i.
pub fn put_signs(bytes: &mut [u8], first: usize, stride: usize, n: usize, values: &[i64])
    requires le_stride { (1 ≤ stride) × (n ≤ length values.now) }
    requires by_index { (i : ℕ) → i < n
        → (first + i * stride + 1 ≤ 8 * length bytes.old)
        × (first + i * stride + 1 < 2 ^ 64) }
    ensures { PutColumn bytes.old n (λ _. true) (λ i. first + i * stride) 1
        (λ i. cond (is_negative (get_or values.now i (pos 0))) 1 0) bytes.new }
{
    for i in 0..n {
        let s = sign(is_negative_at(values, i));
        record_bits::write_bits(bytes, first + i * stride, 1, s);
    }
}

// The sizes of n entries: the field of width bits at first + i * stride takes that of entry i.
pub fn put_sizes(
    bytes: &mut [u8],
    first: usize,
    stride: usize,
    width: usize,
    n: usize,
    values: &[i64],
)
    requires fact { (width ≤ WIDEST) × (width ≤ stride) × (n ≤ length values.now) }
    requires by_index { ((i : ℕ) → i < n
        → (first + i * stride + width ≤ 8 * length bytes.old)
        × (first + i * stride + width < 2 ^ 64))
        × ((i : ℕ) → i < n → size_of (get_or values.now i (pos 0)) < 2 ^ width) }
    ensures { PutColumn bytes.old n (λ _. true) (λ i. first + i * stride) width
        (λ i. size_of (get_or values.now i (pos 0))) bytes.new }
{
    for i in 0..n {
        let s = size_at(values, i);
        record_bits::write_bits(bytes, first + i * stride, width, s);
    }
}

// A sign and a size of width bits, read as one number, become entry i.
fn put_code(out: &mut [i64], i: usize, width: usize, code: u64)
    requires { (i < length out.old) × (width < 63) }
    ensures { out.new ≡ set out.old i (coded width code) }
{
    let unit = record_bits::pow2(width);
    signed::put(out, i, unit <= code, code % unit);
}

// Three of them, read as one number, become the entries from i on.
fn put_three(out: &mut [i64], i: usize, width: usize, codes: u64)
    requires { (i + 2 < length out.old) × (3 * (1 + width) < 64) }
    ensures { out.new ≡ set (set (set out.old
        i (coded width (codes / 2 ^ (2 * (1 + width)) % 2 ^ (1 + width))))
        (i + 1) (coded width (codes / 2 ^ (1 + width) % 2 ^ (1 + width))))
        (i + 2) (coded width (codes / 2 ^ 0 % 2 ^ (1 + width))) }
{
    let row = 1 + width;
    put_code(out, i, width, record_bits::part(codes, 2 * row, row));
    put_code(out, i + 1, width, record_bits::part(codes, row, row));
    put_code(out, i + 2, width, record_bits::part(codes, 0, row));
}

// A sign and a size for each of n entries, from `first` on, three entries at a time; how many were read. Entries past them stay.
fn read_threes(bytes: &[u8], first: usize, width: usize, n: usize, out: &mut [i64]) -> usize
    requires fact { (8 * length bytes.now < 2 ^ 64) × (3 * (1 + width) ≤ HELD) × (n ≤ length out.old) }
    requires by_index { (i : ℕ) → i < n → first + i * (1 + width) + (1 + width) ≤ 8 * length bytes.now }
    ensures { (result ≤ n) × (out.new ≡ over (table result (λ i. with_sign
        (eqb (bits_at bytes.now (first + i * (1 + width)) 1) 1)
        (bits_at bytes.now (first + i * (1 + width) + 1) width))) out.old) }
{
    let row = 1 + width;
    let mut i = 0;
    // a while: it steps by three, and where it stops is the answer
    while i + 2 < n {
        let codes = record_bits::read_bits(bytes, first + i * row, 3 * row);
        put_three(out, i, width, codes);
        i += 3;
    }
    i
}

// A sign and a size for each of n entries, from `first` on; entries from n on stay.
pub fn read_signed(bytes: &[u8], first: usize, width: usize, n: usize, out: &mut [i64])
    requires fact { (8 * length bytes.now < 2 ^ 64) × (3 * (1 + width) ≤ HELD) × (n ≤ length out.old) }
    requires by_index { (i : ℕ) → i < n → first + i * (1 + width) + (1 + width) ≤ 8 * length bytes.now }
    ensures { out.new ≡ over (table n (λ i. with_sign
        (eqb (bits_at bytes.now (first + i * (1 + width)) 1) 1)
        (bits_at bytes.now (first + i * (1 + width) + 1) width))) out.old }
{
    let row = 1 + width;
    let read = read_threes(bytes, first, width, n, out);
    for i in read..n {
        let code = record_bits::read_bits(bytes, first + i * row, row);
        put_code(out, i, width, code);
    }
}

// The place after a row's field, where there is one; with a width of 1, the count with the row.
fn after(at: usize, width: usize, here: bool) -> usize
    requires { at + width < 2 ^ 64 }
    ensures { result ≡ at + cond here 1 0 * width }
{
    if here {
        return at + width;
    }
    at
}

// How many of the first n rows a table marks.
pub fn count_marked(mark: u64, n: usize, marks: &[u64]) -> usize
    requires { n ≤ length marks.now }
    ensures { result ≡ those (marked mark marks.now) n }
{
    let mut count = 0;
    for i in 0..n {
        count = after(count, 1, marks[i] == mark);
    }
    count
}

// The field at a place, where there is one, and 0 where not.
fn field_if(bytes: &[u8], at: usize, width: usize, here: bool) -> u64
    requires { (at + cond here width 0 ≤ 8 * length bytes.now) × (at + width < 2 ^ 64) × (width ≤ WIDEST) }
    ensures { result ≡ cond here (bits_at bytes.now at width) 0 }
{
    if here {
        return record_bits::read_bits(bytes, at, width);
    }
    ABSENT
}

// One field for each of n rows that the table of marks marks, one after another from `first` on; other entries below n become 0. Answers the
// place after the last.
pub fn read_marked(
    bytes: &[u8],
    first: usize,
    width: usize,
    mark: u64,
    n: usize,
    marks: &[u64],
    out: &mut [u64],
) -> usize
    requires { (8 * length bytes.now + width < 2 ^ 64)
        × (width ≤ WIDEST)
        × (n ≤ length out.old)
        × (n ≤ length marks.now)
        × (first + those (marked mark marks.now) n * width ≤ 8 * length bytes.now) }
    ensures { (result ≡ first + those (marked mark marks.now) n * width)
        × (out.new ≡ over (table n (λ i. cond (marked mark marks.now i)
        (bits_at bytes.now (first + those (marked mark marks.now) i * width) width)
        0)) out.old) }
{
    let mut at = first;
    for i in 0..n {
        let here = marks[i] == mark;
        out[i] = field_if(bytes, at, width, here);
        at = after(at, width, here);
    }
    at
}

// A field put at a place, where there is one.
fn put_if(bytes: &mut [u8], at: usize, width: usize, here: bool, value: u64)
    requires { (at + cond here width 0 ≤ 8 * length bytes.old) × (at + width < 2 ^ 64) × (width ≤ WIDEST) × (value < 2 ^ width) }
    ensures { PutIf here bytes.old at width value bytes.new }
{
    if here {
        record_bits::write_bits(bytes, at, width, value);
    }
}

// One field for each of n rows that the table of marks marks, one after another from `first` on.
pub fn put_marked(
    bytes: &mut [u8],
    first: usize,
    width: usize,
    mark: u64,
    n: usize,
    marks: &[u64],
    values: &[u64],
)
    requires fact { (width ≤ WIDEST)
        × (n ≤ length marks.now)
        × (n ≤ length values.now)
        × (first + those (marked mark marks.now) n * width ≤ 8 * length bytes.old)
        × (first + those (marked mark marks.now) n * width + width < 2 ^ 64) }
    requires by_index { (i : ℕ) → i < n → get_or values.now i 0 < 2 ^ width }
    ensures { PutColumn bytes.old n (marked mark marks.now)
        (λ i. first + those (marked mark marks.now) i * width) width
        (λ i. get_or values.now i 0) bytes.new }
{
    let mut at = first;
    for i in 0..n {
        let here = marks[i] == mark;
        put_if(bytes, at, width, here, values[i]);
        at = after(at, width, here);
    }
}

// Zero bits from a place up to a whole byte, and how many bytes that makes.
pub fn pad(bytes: &mut [u8], at: usize) -> usize
    requires { (bytes_for at ≤ length bytes.old) × (at + 8 < 2 ^ 64) }
    ensures { (result ≡ bytes_for at) × Put bytes.old at (8 * bytes_for at - at) 0 bytes.new }
{
    let length = record_bits::bytes_for(at);
    let end = 8 * length;
    record_bits::write_bits(bytes, at, end - at, 0);
    length
}
