// The call for the direction pass.
// Kept as parameters: C passes numbers and lists one by one.
ghost use Rattle.std.specs.Prelude.{◌≡◌};
ghost use Rattle.cdef_spec.specs.Answers.{number_of};
ghost use Rattle.cdef_spec.specs.FrameCalls.{direction_pass_outcome};

use crate::answer;
use cdef_spec::Plane;

// The direction and the variance of each 8 by 8 block of a luma plane.
#[unsafe(no_mangle)]
pub extern "C" fn quern_direction_pass(
    dirs: &mut [u8],
    vars: &mut [u32],
    plane: &[u16],
    width: usize,
    height: usize,
    depth: u8,
) -> u32
    ensures code { result ≡ number_of (direction_pass_outcome (record { samples = plane.now; width = width; height = height }) depth
        dirs.old vars.old).answer }
    ensures dirs_after { dirs.new ≡ (direction_pass_outcome (record { samples = plane.now; width = width; height = height }) depth
        dirs.old vars.old).dirs }
    ensures vars_after { vars.new ≡ (direction_pass_outcome (record { samples = plane.now; width = width; height = height }) depth
        dirs.old vars.old).vars }
{
    let plane = Plane {
        samples: plane,
        width,
        height,
    };
    answer::number(cdef::pass::directions(dirs, vars, &plane, depth))
}
