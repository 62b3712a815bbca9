// One block of a checked picture, filtered with a pair.
// Kept with a block's place in the contract: by and bx are in range of the picture in `i`, so that `BlockInput { input: FilterInput, by, bx, ghost inside }` would copy the picture for each block.
#![tactic(auto)]

ghost use Rattle.std.specs.Prelude.{◌≡◌, ◌+◌, ◌-◌, ◌*◌, ◌≤◌, ◌<◌, length};
ghost use Rattle.cdef_spec.specs.Picture.{block_rows, block_cols, block_height, plane_width};
ghost use Rattle.frame_shape.specs.Checked.{filter_in};
ghost use Rattle.frame_filter.specs.Stored.{block_stored};

use frame_shape::inputs::FilterInput;
use frame_shape::params::TakenPair;

// Into rows whose first is the plane's row y0.
pub fn filter_block(
    dst: &mut [u16],
    y0: usize,
    i: &FilterInput<'_>,
    p: TakenPair,
    by: usize,
    bx: usize,
)
    requires inside { (by < block_rows (filter_in i.now)) × (bx < block_cols (filter_in i.now)) }
    requires begins { y0 ≤ by * block_height (filter_in i.now) }
    requires room { (by * block_height (filter_in i.now) - y0 + block_height (filter_in i.now)) * plane_width (filter_in i.now) ≤ length dst.old }
    ensures { dst.new ≡ block_stored (filter_in i.now) i.now.damping i.now.plane.samples.now p.pair by bx y0 dst.old }
{
    let b = i.listed.shaped.block_of(by, bx);
    let k = i.listed.shaped.block_at(by, bx);
    let q = i.listed.shaped.params_for(k, p, i.damping);
    plane_block::filter_block(dst, y0, &i.plane, b, q);
}
