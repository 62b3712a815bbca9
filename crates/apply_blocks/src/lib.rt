// One block: left as it is, or filtered with its unit's pair.
// Kept in each contract, destination, place and pairs: the destination is written, so that no struct of a shared input can hold it, and the place is of the picture in the input.
#![tactic(auto)]

ghost use Rattle.std.specs.Prelude.{◌≡◌, ◌*◌, ◌<◌, length};
ghost use Rattle.cdef_spec.specs.Picture.{block_rows, block_cols, plane_width, plane_height, units};
ghost use Rattle.cdef_pairs.specs.Applying.{Paired};
ghost use Rattle.frame_shape.specs.Checked.{filter_in};
ghost use Rattle.apply_blocks.specs.Blocks.{block_applied};

use cdef_pairs::Pairs;
use frame_shape::inputs::FilterInput;
use frame_shape::params::TakenPair;

// A skipped block is not written, nor is any block of a unit whose pair is 0, 0.
pub fn apply_block<P: Pairs>(dst: &mut [u16], i: &FilterInput<'_>, pairs: &P, by: usize, bx: usize)
    requires paired { Paired (units (filter_in i.now)) (P.pairs pairs.now) }
    requires inside { (by < block_rows (filter_in i.now)) × (bx < block_cols (filter_in i.now)) }
    requires full { length dst.old ≡ plane_width (filter_in i.now) * plane_height (filter_in i.now) }
    ensures { dst.new ≡ block_applied (filter_in i.now) i.now.damping i.now.plane.samples.now (P.pairs pairs.now) by bx dst.old }
{
    let shaped = i.listed.shaped;
    if shaped.picture.skip[shaped.block_at(by, bx)] != 0 {
        return;
    }
    let p = pairs.pair(shaped.unit_at(by, bx));
    if frame_shape::params::is_off(p) {
        return;
    }
    let taken = TakenPair { pair: p };
    frame_filter::filter_block(dst, 0, i, taken, by, bx);
}
