// The visible part of an original's block, of which its distances are taken.
// Kept with a block's place in the contract: as in frame_filter.
#![tactic(auto)]

ghost use Rattle.std.specs.Bool.{then_some};
ghost use Rattle.std.specs.Prelude.{◌≡◌, ◌+◌, ◌*◌, ◌≤◌, ◌<◌};
ghost use Rattle.cdef_spec.specs.Distance.{constants_of};
ghost use Rattle.cdef_spec.specs.Picture.{block_rows, block_cols, block_width, block_height, visible_rows, visible_cols, plane_width};
ghost use Rattle.frame_shape.specs.Checked.{compare_in};
ghost use Rattle.frame_shape.specs.Frame.{visible_part};
ghost use Rattle.frame_shape.specs.Shape.{is_luma};

use cdef_spec::DistanceConstants;
use distance_visible::Part;
use frame_shape::inputs::CompareInput;

// c are the constants of the picture's depth: a luma part has them as its weights.
pub fn part_of<'a>(i: &CompareInput<'a>, by: usize, bx: usize, c: DistanceConstants) -> Part<'a>
    requires inside { (by < block_rows (compare_in i.now)) × (bx < block_cols (compare_in i.now)) }
    requires begun { (by * block_height (compare_in i.now) ≤ visible_rows (compare_in i.now) i.now.visible)
        × (bx * block_width (compare_in i.now) ≤ visible_cols (compare_in i.now) i.now.visible) }
    requires constants { c ≡ constants_of (compare_in i.now).depth }
    ensures samples { result.samples.now ≡ i.now.original.samples.now }
    ensures start { result.start ≡ (visible_part (compare_in i.now) i.now.visible by bx).y * plane_width (compare_in i.now) + (visible_part (compare_in i.now) i.now.visible by bx).x }
    ensures pitch { result.pitch ≡ plane_width (compare_in i.now) }
    ensures sides { (result.rows ≡ (visible_part (compare_in i.now) i.now.visible by bx).height) × (result.cols ≡ (visible_part (compare_in i.now) i.now.visible by bx).width) }
    ensures depth { result.depth ≡ (compare_in i.now).depth }
    ensures weights { result.weights ≡ then_some (is_luma (compare_in i.now).kind) (constants_of (compare_in i.now).depth) }
{
    let q = i.filter.listed.shaped;
    let b = q.visible_part(i.visible, by, bx);
    let pitch = i.original.width;
    Part {
        samples: i.original.samples,
        start: b.y * pitch + b.x,
        pitch,
        rows: b.height,
        cols: b.width,
        depth: q.picture.depth,
        weights: q.is_luma().then_some(c),
    }
}
