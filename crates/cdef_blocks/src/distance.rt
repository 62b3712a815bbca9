// The calls for the distance of two blocks.
// Kept as parameters: a call's own, in the order of docs/CALLS.md.
ghost use Rattle.std.specs.Prelude.{◌≡◌};
ghost use Rattle.cdef_spec.specs.Lent.{plane_in};
ghost use Rattle.cdef_spec.specs.Answers.{read};
ghost use Rattle.cdef_spec.specs.BlockCalls.{distance_outcome, squares_outcome};

use cdef_spec::{Plane, Refusal};

// The weighted distance of the 8 by 8 blocks at (x, y); plain squares where they cross the right or bottom edge.
pub fn distance(
    orig: &Plane<'_>,
    other: &[u16],
    x: usize,
    y: usize,
    depth: u8,
) -> Result<i64, Refusal>
    ensures { read result ≡ distance_outcome (plane_in orig.now) other.now depth y x }
{
    let full = check_block::distance::distance_no(orig, other, x, y, depth)?;
    let constants = distance_weight::constants_of(depth);
    Ok(distance_block::cdef_dist_8x8(&full, other, x, y, constants) as i64)
}

// The plain squares, that is the sum of squared differences (SSE), of the 8 by 8 blocks at (x, y), cropped to the plane.
pub fn squares(
    orig: &Plane<'_>,
    other: &[u16],
    x: usize,
    y: usize,
    depth: u8,
) -> Result<i64, Refusal>
    ensures { read result ≡ squares_outcome (plane_in orig.now) other.now depth y x }
{
    let full = check_block::distance::distance_no(orig, other, x, y, depth)?;
    Ok(distance_block::block_sse_8x8(&full, other, x, y) as i64)
}
