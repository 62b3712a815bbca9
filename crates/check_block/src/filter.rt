// The checks of the block filter.
// Kept as a clause, the block's height ≤ 8: question 5 has passed it, and the caller's Block says nothing.
ghost use Rattle.std.specs.Prelude.{◌≡◌, ◌≤◌, ◌<◌, IfOk};
ghost use Rattle.cdef_spec.specs.Lent.{plane_in, plane_in_full};
ghost use Rattle.cdef_spec.specs.Answers.{code_of};
ghost use Rattle.cdef_spec.specs.Questions.{first_no, rows_taken};
ghost use Rattle.check_block.specs.Parts.{filter_first};

use crate::{block_taken, full_plane};
use cdef_spec::full::FullPlane;
use cdef_spec::{Block, FilterParams, Plane, Refusal};

// 6: a destination of whole rows that starts at or above the block and reaches its end, or the plane's.
#[tactic(auto, unfolding(cdef_spec::specs::Questions::rows_taken, cdef_spec::specs::Lent::plane_in))]
fn rows_taken(dst: &[u16], y0: usize, plane: &Plane<'_>, b: Block) -> bool
    requires sides { (0 < plane.now.width) × (plane.now.height ≤ 4096) }
    requires block_in { (b.y < plane.now.height) × (b.height ≤ 8) }
    ensures { result ≡ rows_taken (plane_in plane.now) b y0 dst.now }
{
    dst.len() % plane.width == 0
        && y0 <= b.y
        && (b.y + b.height).min(plane.height) - y0 <= dst.len() / plane.width
}

// 1, 2, 4, 5, 6 and 8 of the block filter.
pub fn filter_no<'a>(
    dst: &[u16],
    y0: usize,
    plane: &Plane<'a>,
    b: Block,
    q: FilterParams,
) -> Result<FullPlane<'a>, Refusal>
    ensures first_no { code_of result ≡ first_no (filter_first (plane_in plane.now) b q y0 dst.now) }
    ensures same { IfOk result (λ p. plane_in_full p ≡ plane_in plane.now) }
{
    let full = full_plane(plane, q.depth)?;
    if !block_taken(plane, b) {
        return Err(Refusal::Position);
    }
    if !rows_taken(dst, y0, plane, b) {
        return Err(Refusal::Destination);
    }
    if !check_values::params_taken(q) {
        return Err(Refusal::Values);
    }
    Ok(full)
}
