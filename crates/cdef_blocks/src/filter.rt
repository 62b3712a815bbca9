// The call for the block filter.
ghost use Rattle.std.specs.Prelude.{◌≡◌};
ghost use Rattle.cdef_spec.specs.Lent.{plane_in};
ghost use Rattle.cdef_spec.specs.Answers.{read_done};
ghost use Rattle.cdef_spec.specs.BlockCalls.{filter_outcome};

use cdef_spec::{Block, FilterParams, Plane, Refusal};

// Filters a block of a plane into a destination of whole rows, whose first is the plane's row y0.
// A sample outside the block, off the plane or with a marked centre keeps its value.
pub fn filter_block(
    dst: &mut [u16],
    y0: usize,
    plane: &Plane<'_>,
    block: Block,
    params: FilterParams,
) -> Result<(), Refusal>
    ensures { filter_outcome (plane_in plane.now) block params y0 dst.old
        ≡ record { answer = read_done result; dst = dst.new } }
{
    let full = check_block::filter::filter_no(dst, y0, plane, block, params)?;
    let win = filter_window::window(&full, block);
    check_samples::window_no(&win, params.depth)?;
    filter_block::filter_window(dst, y0, &win, full.width, full.height, block, params);
    Ok(())
}
