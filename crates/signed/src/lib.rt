// Signed machine integers as a sign and a size. No other crate reasons about them.
#![tactic(auto)]

ghost use Rattle.std.specs.Prelude.{◌≡◌, ◌≤◌, ◌<◌, ◌+◌, ◌*◌, ◌^◌, pos, ◌+ℤ◌, ◌-ℤ◌, ◌*ℤ◌, length, get_or, set};
ghost use Rattle.signed.specs.Sign.{is_negative, size as size_of, forward, backward, with_sign};

// Whether u is below 0.
pub fn is_negative(u: i64) -> bool
    ensures { result ≡ is_negative u }
{
    u < 0
}

// The size of u. That of the most negative value, 2^63, fits too: the complement is one less than the size.
pub fn size(u: i64) -> u64
    ensures { result ≡ size_of u }
{
    if u < 0 {
        let v = !u;
        (v as u64) + 1
    } else {
        u as u64
    }
}

// The integer of a sign and a size.
pub fn with_sign(negative: bool, size: u64) -> i64
    requires { size < 2 ^ 63 }
    ensures { result ≡ with_sign negative size }
{
    let v = size as i64;
    if negative { -v } else { v }
}

// The sum of two integers.
pub fn add(a: i64, b: i64) -> i64
    requires { size_of a + size_of b < 2 ^ 63 }
    ensures { result ≡ a +ℤ b }
{
    a + b
}

// An integer less another.
pub fn subtract(a: i64, b: i64) -> i64
    requires { size_of a + size_of b < 2 ^ 63 }
    ensures { result ≡ a -ℤ b }
{
    a - b
}

// A number less another, below 0 where that is larger.
pub fn difference(a: u64, b: u64) -> i64
    requires { (a < 2 ^ 63) × (b < 2 ^ 63) }
    ensures { result ≡ pos a -ℤ pos b }
{
    let x = a as i64;
    let y = b as i64;
    x - y
}

// The product of two integers.
pub fn multiply(a: i64, b: i64) -> i64
    requires { size_of a * size_of b < 2 ^ 63 }
    ensures { result ≡ a *ℤ b }
{
    a * b
}

// An integer n times.
pub fn times(a: i64, n: u64) -> i64
    requires { (n < 2 ^ 63) × (size_of a * n < 2 ^ 63) }
    ensures { result ≡ a *ℤ pos n }
{
    let x = n as i64;
    a * x
}

// A number less an amount of either sign, where that is a number.
pub fn less(n: u64, amount: i64) -> u64
    requires { (forward amount ≤ n) × (n + backward amount < 2 ^ 63) }
    ensures { result + forward amount ≡ n + backward amount }
{
    let x = n as i64;
    let y = x - amount;
    y as u64
}

// A number and an amount of either sign, where that is a number.
pub fn more(n: u64, amount: i64) -> u64
    requires { (backward amount ≤ n) × (n + forward amount < 2 ^ 63) }
    ensures { result + backward amount ≡ n + forward amount }
{
    let x = n as i64;
    let y = x + amount;
    y as u64
}

// The size of an entry of a table.
pub fn size_at(xs: &[i64], i: usize) -> u64
    requires { i < length xs.now }
    ensures { result ≡ size_of (get_or xs.now i (pos 0)) }
{
    size(xs[i])
}

// Whether an entry of a table is below 0.
pub fn is_negative_at(xs: &[i64], i: usize) -> bool
    requires { i < length xs.now }
    ensures { result ≡ is_negative (get_or xs.now i (pos 0)) }
{
    is_negative(xs[i])
}

// An entry of a table set from its sign and its size.
pub fn put(xs: &mut [i64], i: usize, negative: bool, size: u64)
    requires { (i < length xs.old) × (size < 2 ^ 63) }
    ensures { xs.new ≡ set xs.old i (with_sign negative size) }
{
    let v = with_sign(negative, size);
    xs[i] = v;
}

// An amount of a sign and a size added to an entry of a table.
pub fn add_at(xs: &mut [i64], i: usize, negative: bool, size: u64)
    requires { (i < length xs.old) × (size_of (get_or xs.old i (pos 0)) + size < 2 ^ 63) }
    ensures { xs.new ≡ set xs.old i (get_or xs.old i (pos 0) +ℤ with_sign negative size) }
{
    let v = with_sign(negative, size);
    let u = xs[i];
    let w = add(u, v);
    xs[i] = w;
}
