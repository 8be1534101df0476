// Where the fields of a body stand.
ghost use Rattle.std.specs.Prelude.{◌≡◌};

// A place in a body, in bits from the body's first, and the widths of the fields there.
#[derive(Clone, Copy)]
pub struct Body {
    pub at: usize,
}

impl Body {
    // V, K and the size of U, narrow and wide.
    pub const NARROW_VALUE: usize = 12;

    pub const WIDE_VALUE: usize = 16;

    // m and a release, narrow and wide.
    pub const NARROW_MASS: usize = 32;

    pub const WIDE_MASS: usize = 40;

    pub const END: usize = 12;

    pub const SHARE: usize = 8;

    // One face of a mesh, but for K.
    pub const ENDS_AND_SHARE: usize = 2 * Body::END + Body::SHARE;

    pub const SIGN: usize = 1;

    pub const OUTSIDE: usize = 20;

    pub fn new(bit: usize) -> Self
        ensures { result.at ≡ bit }
    {
        Body { at: bit }
    }
}
