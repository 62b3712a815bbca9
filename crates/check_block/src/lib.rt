// The checks of the calls on one block, in order: each returns why the first that fails does. No public function of the crate requires anything.
// Kept as parameters: a call's own, as the caller passes them, in the order of the call.
#![tactic(auto, unfolding(cdef_spec::specs::Answers::code_of, cdef_spec::specs::Answers::error_code, cdef_spec::specs::Questions::first_no, cdef_spec::specs::BlockCalls::direction_no, cdef_spec::specs::BlockCalls::distance_no))]

ghost use Rattle.std.specs.Prelude.{◌≡◌, ◌≤◌, IfOk};
ghost use Rattle.cdef_spec.specs.Lent.{plane_in, plane_in_full};
ghost use Rattle.cdef_spec.specs.Answers.{code_of};
ghost use Rattle.cdef_spec.specs.Questions.{first_no, block_taken};
ghost use Rattle.cdef_spec.specs.BlockCalls.{direction_no};
ghost use Rattle.check_block.specs.Parts.{plane_first};

use cdef_spec::full::FullPlane;
use cdef_spec::{Block, Plane, Refusal};

pub mod distance; // distance.rt: the checks of the distances
pub mod filter; // filter.rt: the checks of the block filter
pub mod trial; // trial.rt: the checks of the trial

// 1, 2 and 4: the depth, the sides, the plane's length.
#[tactic(auto, unfolding(cdef_spec::specs::Answers::code_of, cdef_spec::specs::Answers::error_code, cdef_spec::specs::Questions::first_no, cdef_spec::specs::Questions::side_taken, cdef_spec::specs::Lent::plane_in, cdef_spec::specs::Lent::plane_in_full))]
pub fn full_plane<'a>(plane: &Plane<'a>, depth: u8) -> Result<FullPlane<'a>, Refusal>
    ensures first_no { code_of result ≡ first_no (plane_first (plane_in plane.now) depth) }
    ensures same { IfOk result (λ p. plane_in_full p ≡ plane_in plane.now) }
    ensures in_range { IfOk result (λ p. (8 ≤ depth) × (depth ≤ 12) × (1 ≤ p.width) × (1 ≤ p.height)) }
{
    if !check_sides::depth_taken(depth) {
        return Err(Refusal::Depth);
    }
    if !(check_sides::side_taken::<4096>(plane.width)
        && check_sides::side_taken::<4096>(plane.height))
    {
        return Err(Refusal::Sides);
    }
    if !check_sides::full(plane) {
        return Err(Refusal::PlaneLength);
    }
    Ok(FullPlane {
        samples: plane.samples,
        width: plane.width,
        height: plane.height,
    })
}

// 5: a block that begins in the plane.
#[tactic(auto, unfolding(cdef_spec::specs::Questions::block_taken, cdef_spec::specs::Questions::side_taken, cdef_spec::specs::Questions::block_side_taken))]
pub fn block_taken(plane: &Plane<'_>, b: Block) -> bool
    ensures { result ≡ block_taken (plane_in plane.now) b }
{
    check_sides::corner_taken(plane, b.x, b.y)
        && check_sides::side_taken::<8>(b.width)
        && check_sides::side_taken::<8>(b.height)
}

// 1, 2, 4, 5 and 9 of the direction of a block.
pub fn direction_no<'a>(
    plane: &Plane<'a>,
    x: usize,
    y: usize,
    depth: u8,
) -> Result<FullPlane<'a>, Refusal>
    ensures first_no { code_of result ≡ direction_no (plane_in plane.now) depth y x }
    ensures same { IfOk result (λ p. plane_in_full p ≡ plane_in plane.now) }
{
    let full = full_plane(plane, depth)?;
    if !check_sides::corner_taken(plane, x, y) {
        return Err(Refusal::Position);
    }
    if !check_samples::cut_taken(&full, x, y, depth) {
        return Err(Refusal::Samples);
    }
    Ok(full)
}
