// The calls of host_share.
ghost use Rattle.std.specs.Prelude.{◌≡◌};
ghost use Rattle.host_share.specs.Share.{face_from, ShareFromC, version};

// Document 02's S-7: the share of a face from its two ends and the centres of its first and second cell.
#[unsafe(no_mangle)]
pub extern "C" fn lagoon_share(
    x1: f64,
    y1: f64,
    x2: f64,
    y2: f64,
    first_x: f64,
    first_y: f64,
    second_x: f64,
    second_y: f64,
    found: &mut [u64],
) -> u64
    ensures { ShareFromC (face_from x1 y1 x2 y2 first_x first_y second_x second_y) found.old result found.new }
{
    host_share::lagoon_share(x1, y1, x2, y2, first_x, first_y, second_x, second_y, found)
}

// The library's version as one number.
#[unsafe(no_mangle)]
pub extern "C" fn lagoon_version() -> u64
    ensures { result ≡ version 2 8 1 }
{
    host_share::lagoon_version()
}
