// Applying: a plane filtered from its snapshot, each unit with its own pair. It validates nothing and is given the figure in force.
// Kept in each contract, destination and pairs: the destination is written, so no struct can hold it beside the input, and pairs is of the caller's type.
#![tactic(auto)]

ghost use Rattle.std.specs.Prelude.{◌≡◌, ◌*◌, ◌<◌, length};
ghost use Rattle.cdef_spec.specs.Picture.{block_rows, block_cols, plane_width, plane_height, units, applied_plane};
ghost use Rattle.cdef_pairs.specs.Applying.{Paired};
ghost use Rattle.frame_shape.specs.Checked.{filter_in};
ghost use Rattle.apply_plane.specs.Apply.{row_applied};

use cdef_pairs::Pairs;
use frame_shape::inputs::FilterInput;

// Row by of the blocks.
// Kept by index: a block's place is computed from its row and column, and `(0..n).for_each(|bx| apply_blocks::apply_block(dst, i, pairs, by, bx))` is the same loop in other words.
fn apply_row<P: Pairs>(dst: &mut [u16], i: &FilterInput<'_>, pairs: &P, by: usize)
    requires paired { Paired (units (filter_in i.now)) (P.pairs pairs.now) }
    requires inside { by < block_rows (filter_in i.now) }
    requires full { length dst.old ≡ plane_width (filter_in i.now) * plane_height (filter_in i.now) }
    ensures { dst.new ≡ row_applied (filter_in i.now) i.now.damping i.now.plane.samples.now (P.pairs pairs.now) by dst.old (block_cols (filter_in i.now)) }
{
    for bx in 0..i.listed.shaped.picture.width / 8 {
        apply_blocks::apply_block(dst, i, pairs, by, bx);
    }
}

// The whole plane. Kept by index, as the columns of a row.
pub fn apply_plane<P: Pairs>(dst: &mut [u16], i: &FilterInput<'_>, pairs: &P)
    requires paired { Paired (units (filter_in i.now)) (P.pairs pairs.now) }
    requires full { length dst.old ≡ plane_width (filter_in i.now) * plane_height (filter_in i.now) }
    ensures { dst.new ≡ applied_plane (filter_in i.now) i.now.damping i.now.plane.samples.now (P.pairs pairs.now) dst.old }
{
    for by in 0..i.listed.shaped.picture.height / 8 {
        apply_row(dst, i, pairs, by);
    }
}
