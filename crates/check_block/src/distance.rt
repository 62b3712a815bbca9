// The checks of the distances.
// Kept as parameters: as in lib.rt.
ghost use Rattle.std.specs.Prelude.{◌≡◌, IfOk};
ghost use Rattle.cdef_spec.specs.Lent.{plane_in, plane_in_full};
ghost use Rattle.cdef_spec.specs.Answers.{code_of};
ghost use Rattle.cdef_spec.specs.BlockCalls.{distance_no};

use crate::full_plane;
use cdef_spec::full::FullPlane;
use cdef_spec::{Plane, Refusal};

// 1, 2, 4, 5 and 9 of an original and another plane of its sides.
#[tactic(auto, unfolding(cdef_spec::specs::Answers::code_of, cdef_spec::specs::Answers::error_code, cdef_spec::specs::Questions::first_no, cdef_spec::specs::Lent::plane_in, cdef_spec::specs::BlockCalls::distance_no))]
pub fn distance_no<'a>(
    orig: &Plane<'a>,
    other: &[u16],
    x: usize,
    y: usize,
    depth: u8,
) -> Result<FullPlane<'a>, Refusal>
    ensures first_no { code_of result ≡ distance_no (plane_in orig.now) other.now depth y x }
    ensures same { IfOk result (λ p. plane_in_full p ≡ plane_in orig.now) }
{
    let full = full_plane(orig, depth)?;
    let second = full_plane(
        &Plane {
            samples: other,
            ..*orig
        },
        depth,
    )?;
    if !check_sides::corner_taken(orig, x, y) {
        return Err(Refusal::Position);
    }
    if !check_samples::cut_taken(&full, x, y, depth) {
        return Err(Refusal::Samples);
    }
    if !check_samples::cut_taken(&second, x, y, depth) {
        return Err(Refusal::Samples);
    }
    Ok(full)
}
