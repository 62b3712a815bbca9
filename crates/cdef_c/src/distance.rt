// The calls for the distance of two blocks.
// Kept as parameters: C passes numbers and lists one by one.
ghost use Rattle.std.specs.Prelude.{◌≡◌};
ghost use Rattle.cdef_spec.specs.Answers.{number_of};
ghost use Rattle.cdef_spec.specs.BlockCalls.{distance_outcome, squares_outcome};
ghost use Rattle.cdef_c.specs.Values.{value_or};

use crate::answer::give;
use cdef_spec::Plane;

// The weighted distance of the 8 by 8 blocks at (x, y).
#[unsafe(no_mangle)]
pub extern "C" fn quern_distance(
    orig: &[u16],
    other: &[u16],
    width: usize,
    height: usize,
    x: usize,
    y: usize,
    depth: u8,
    out: &mut i64,
) -> u32
    ensures code { result ≡ number_of (distance_outcome (record { samples = orig.now; width = width; height = height }) other.now
        depth y x) }
    ensures out_after { out.new ≡ value_or out.old
        (distance_outcome (record { samples = orig.now; width = width; height = height }) other.now depth y x) }
{
    let orig = Plane {
        samples: orig,
        width,
        height,
    };
    give(
        cdef_blocks::distance::distance(&orig, other, x, y, depth),
        out,
    )
}

// The plain squares of the 8 by 8 blocks at (x, y).
#[unsafe(no_mangle)]
pub extern "C" fn quern_squares(
    orig: &[u16],
    other: &[u16],
    width: usize,
    height: usize,
    x: usize,
    y: usize,
    depth: u8,
    out: &mut i64,
) -> u32
    ensures code { result ≡ number_of (squares_outcome (record { samples = orig.now; width = width; height = height }) other.now depth
        y x) }
    ensures out_after { out.new ≡ value_or out.old
        (squares_outcome (record { samples = orig.now; width = width; height = height }) other.now depth y x) }
{
    let orig = Plane {
        samples: orig,
        width,
        height,
    };
    give(
        cdef_blocks::distance::squares(&orig, other, x, y, depth),
        out,
    )
}
