// The checks of the direction pass.
#![tactic(auto, unfolding(cdef_spec::specs::Answers::code_of, cdef_spec::specs::Answers::error_code, cdef_spec::specs::Lent::plane_in, cdef_spec::specs::Lent::plane_in_full, cdef_spec::specs::Questions::first_no, cdef_spec::specs::Questions::full, cdef_spec::specs::FrameCalls::direction_pass_no))]

ghost use Rattle.std.specs.Prelude.{◌≡◌, IfOk};
ghost use Rattle.cdef_spec.specs.Lent.{plane_in, plane_in_full};
ghost use Rattle.cdef_spec.specs.Answers.{code_of};
ghost use Rattle.cdef_spec.specs.FrameCalls.{direction_pass_no};

use cdef_spec::full::FullPlane;
use cdef_spec::{Plane, Refusal};

// 1, 2, 4, 7 and 9: why the first that fails does, or the plane with its samples as many as its sides say.
pub fn direction_pass_no<'a>(
    plane: &Plane<'a>,
    depth: u8,
    dirs: &[u8],
    vars: &[u32],
) -> Result<FullPlane<'a>, Refusal>
    ensures first_no { code_of result ≡ direction_pass_no (plane_in plane.now) depth dirs.now vars.now }
    ensures same { IfOk result (λ p. plane_in_full p ≡ plane_in plane.now) }
{
    check_picture::sides(depth, plane.width, plane.height)?;
    if plane.samples.len() != plane.width * plane.height {
        return Err(Refusal::PlaneLength);
    }
    let blocks = plane.height / 8 * (plane.width / 8);
    if dirs.len() != blocks || vars.len() != blocks {
        return Err(Refusal::Lengths);
    }
    if !check_lists::samples_below(plane.samples, depth) {
        return Err(Refusal::Samples);
    }
    Ok(FullPlane {
        samples: plane.samples,
        width: plane.width,
        height: plane.height,
    })
}
