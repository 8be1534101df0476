// What passes through a face, from the cell that gives to the one that receives.
ghost use Rattle.std.specs.Prelude.{◌≡◌, cond, ◌≢◌, ℕ, ◌≤◌, ◌<◌, ◌+◌, ◌^◌, length, get_or};
ghost use Rattle.signed.specs.Sign.{with_sign};
ghost use Rattle.model.specs.Mesh.{rim};
ghost use Rattle.step_face.specs.Exchange.{brings, takes, Lost, Gained, Transferred, EndsIn};

// The end that an amount goes to; with the ends exchanged, the one that it comes from.
pub fn end_to(negative: bool, first: u64, second: u64) -> u64
    ensures { result ≡ cond negative first second }
{
    if negative { first } else { second }
}

// A cell loses an amount.
pub fn lose(next: &mut [u64], giver: u64, amount: u64)
    requires { (length next.old ≤ rim) × (giver < length next.old) × (amount ≤ get_or next.old giver 0) }
    ensures { Lost next.old giver amount next.new }
{
    let cell = giver as usize;
    next[cell] = next[cell] - amount;
}

// A cell gains an amount.
pub fn gain(next: &mut [u64], receiver: u64, amount: u64)
    requires { (length next.old ≤ rim) × (receiver < length next.old) × (get_or next.old receiver 0 + amount < 2 ^ 64) }
    ensures { Gained next.old receiver amount next.new }
{
    let cell = receiver as usize;
    next[cell] = next[cell] + amount;
}

// An amount passes through a face inside the mesh: from the first cell to the second, or back.
pub fn transfer(next: &mut [u64], first: u64, second: u64, negative: bool, amount: u64)
    requires ends_in { EndsIn (length next.old) first second × (second ≢ rim) }
    requires by_index { (c : ℕ) → c < length next.old → takes first second (with_sign negative amount) c ≤ get_or next.old c 0 }
    requires by_index_2 { (c : ℕ) → c < length next.old → get_or next.old c 0 + brings first second (with_sign negative amount) c < 2 ^ 64 }
    ensures { Transferred next.old first second (with_sign negative amount) next.new }
{
    let giver = end_to(negative, second, first);
    let receiver = end_to(negative, first, second);
    lose(next, giver, amount);
    gain(next, receiver, amount);
}

// An amount of either sign passes through a face inside the mesh: its first cell has so much less, its second so much more.
pub fn pass(next: &mut [u64], first: u64, second: u64, amount: i64)
    requires ends_in { EndsIn (length next.old) first second × (second ≢ rim) }
    requires by_index { (c : ℕ) → c < length next.old → takes first second amount c ≤ get_or next.old c 0 }
    requires by_index_2 { (c : ℕ) → c < length next.old → get_or next.old c 0 + brings first second amount c < 2 ^ 63 }
    ensures { Transferred next.old first second amount next.new }
{
    let from = first as usize;
    let to = second as usize;
    let left = signed::less(next[from], amount);
    next[from] = left;
    let grown = signed::more(next[to], amount);
    next[to] = grown;
}
