// The call for the direction of a block.
// Kept as parameters: a call's own, in the order of docs/CALLS.md.
ghost use Rattle.std.specs.Prelude.{◌≡◌};
ghost use Rattle.cdef_spec.specs.Lent.{plane_in};
ghost use Rattle.cdef_spec.specs.Answers.{read_found};
ghost use Rattle.cdef_spec.specs.BlockCalls.{direction_outcome};

use cdef_spec::{Found, Plane, Refusal};

// The direction and the variance of the 8 by 8 block at (x, y). Only the block, cropped to the plane, is examined.
pub fn direction(plane: &Plane<'_>, x: usize, y: usize, depth: u8) -> Result<Found, Refusal>
    ensures { read_found result ≡ direction_outcome (plane_in plane.now) depth y x }
{
    let full = check_block::direction_no(plane, x, y, depth)?;
    Ok(direction_block::cdef_direction(&full, x, y, depth))
}
