// The call for the direction pass.
ghost use Rattle.std.specs.Prelude.{◌≡◌};
ghost use Rattle.cdef_spec.specs.Answers.{read_done};
ghost use Rattle.cdef_spec.specs.Lent.{plane_in};
ghost use Rattle.cdef_spec.specs.FrameCalls.{direction_pass_outcome};

use cdef_spec::{Plane, Refusal};

// The direction and the variance of each 8 by 8 block of a luma plane.
pub fn directions(
    dirs: &mut [u8],
    vars: &mut [u32],
    plane: &Plane<'_>,
    depth: u8,
) -> Result<(), Refusal>
    ensures { direction_pass_outcome (plane_in plane.now) depth dirs.old vars.old
        ≡ record { answer = read_done result; dirs = dirs.new; vars = vars.new } }
{
    let full = check_pass::direction_pass_no(plane, depth, dirs, vars)?;
    pass_plane::direction_pass(dirs, vars, &full, depth);
    Ok(())
}
