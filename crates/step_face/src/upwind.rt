// What the water takes along through a face, stage 1, and what of it crosses the rim.
ghost use Rattle.std.specs.Prelude.{◌≡◌, cond};

// The concentration upwind of a face, between a of its first cell and b beyond it.
pub fn upwind(negative: bool, a: u64, b: u64) -> u64
    ensures { result ≡ cond negative b a }
{
    if negative { b } else { a }
}

// What an amount over the rim adds to the in-mass.
pub fn entered(negative: bool, amount: u64) -> u64
    ensures { result ≡ cond negative amount 0 }
{
    if negative { amount } else { 0 }
}

// What an amount over the rim adds to the out-mass.
pub fn gone(negative: bool, amount: u64) -> u64
    ensures { result ≡ cond negative 0 amount }
{
    if negative { 0 } else { amount }
}
