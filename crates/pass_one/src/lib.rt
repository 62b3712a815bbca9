// One block of the direction pass.
// Kept as parameters: the two lists, since the C interface passes them as two. What holds of them is PassIn and Filled.
#![tactic(auto)]

ghost use Rattle.std.specs.Prelude.{◌+◌, ◌*◌, ◌/◌, ◌<◌};
ghost use Rattle.cdef_spec.specs.Lent.{plane_in_full};
ghost use Rattle.pass_one.specs.Pass.{PassIn, Filled};

use cdef_spec::full::FullPlane;

// The block in row by and column bx of the blocks.
pub fn one_block(
    dirs: &mut [u8],
    vars: &mut [u32],
    plane: &FullPlane<'_>,
    bx: usize,
    by: usize,
    depth: u8,
)
    requires pass_in { PassIn (plane_in_full plane.now) depth dirs.old vars.old × (bx < plane.now.width / 8) × (by < plane.now.height / 8) }
    requires filled { Filled (plane_in_full plane.now) depth (by * (plane.now.width / 8) + bx) dirs.old vars.old }
    ensures { Filled (plane_in_full plane.now) depth (by * (plane.now.width / 8) + (bx + 1)) dirs.new vars.new }
{
    let f = direction_block::cdef_direction(plane, bx * 8, by * 8, depth);
    let at = by * (plane.width / 8) + bx;
    dirs[at] = f.direction;
    vars[at] = f.variance;
}
