// The checks of the trial.
// Kept as parameters: as in lib.rt; a TrialParams is made once they are taken.
ghost use Rattle.std.specs.Prelude.{◌≡◌, ◌&&◌, ltb, IfOk};
ghost use Rattle.cdef_spec.specs.Lent.{plane_in, plane_in_full};
ghost use Rattle.cdef_spec.specs.Answers.{code_of};
ghost use Rattle.cdef_spec.specs.Questions.{first_no, way_taken, working_taken};
ghost use Rattle.check_block.specs.TrialParts.{trial_first};

use crate::{block_taken, full_plane};
use cdef_spec::full::FullPlane;
use cdef_spec::{Block, Plane, Refusal, TrialWay, WorkingDamping};

// 8: direction, variance and damping.
fn trial_taken(way: TrialWay, dir: u8, damping: WorkingDamping) -> bool
    ensures { result ≡ ltb dir 8 && (way_taken way && working_taken damping) }
{
    dir < 8 && check_values::way_taken(way) && check_values::working_taken(damping)
}

// 1, 2, 4, 5, 7 and 8.
pub fn trial_no<'a>(
    out: &[u16],
    plane: &Plane<'a>,
    b: Block,
    way: TrialWay,
    dir: u8,
    damping: WorkingDamping,
    depth: u8,
) -> Result<FullPlane<'a>, Refusal>
    ensures first_no { code_of result ≡ first_no (trial_first (plane_in plane.now) b way dir damping depth out.now) }
    ensures same { IfOk result (λ p. plane_in_full p ≡ plane_in plane.now) }
{
    let full = full_plane(plane, depth)?;
    if !block_taken(plane, b) {
        return Err(Refusal::Position);
    }
    if out.len() != 768 {
        return Err(Refusal::Lengths);
    }
    if !trial_taken(way, dir, damping) {
        return Err(Refusal::Values);
    }
    Ok(full)
}
