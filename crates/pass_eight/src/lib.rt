// Eight blocks of the direction pass, side by side.
// Kept as parameters: the two lists, since the C interface passes them as two. What holds of them is PassIn and Filled; and `a` and `s`, the two arrays of direction_lanes,
// which are made once per plane.
#![tactic(auto)]

ghost use Rattle.std.specs.Prelude.{◌≡◌, ◌+◌, ◌*◌, ◌/◌, ◌≤◌, ◌<◌, length};
ghost use Rattle.cdef_spec.specs.Lent.{plane_in_full};
ghost use Rattle.pass_one.specs.Pass.{PassIn, Filled};

use cdef_spec::full::FullPlane;

// The block in row by and column bx of the blocks and the seven to its right, as lanes. `a` and `s` are overwritten.
pub fn eight_blocks(
    dirs: &mut [u8],
    vars: &mut [u32],
    plane: &FullPlane<'_>,
    bx: usize,
    by: usize,
    depth: u8,
    a: &mut [i16; 512],
    s: &mut [i16; 512],
)
    requires pass_in { PassIn (plane_in_full plane.now) depth dirs.old vars.old × (bx + 8 ≤ plane.now.width / 8) × (by < plane.now.height / 8) }
    requires filled { Filled (plane_in_full plane.now) depth (by * (plane.now.width / 8) + bx) dirs.old vars.old }
    ensures { Filled (plane_in_full plane.now) depth (by * (plane.now.width / 8) + (bx + 8)) dirs.new vars.new }
{
    direction_lanes::lanes(s, a, plane, bx * 8, by * 8, depth);
    let f = direction_eight::eight(s);
    let at = by * (plane.width / 8) + bx;
    dirs[at..at + 8].copy_from_slice(&f.directions);
    vars[at..at + 8].copy_from_slice(&f.variances);
}
