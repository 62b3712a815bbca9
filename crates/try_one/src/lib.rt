// Trying: one block of a plane.
// Kept with a block's place and the constants in the contract: `BlockInput { input: CompareInput, by, bx, ghost inside }` would copy the picture for each block,
// and the constants, its depth's, are made once for all blocks.
#![tactic(auto)]

ghost use Rattle.std.specs.Prelude.{◌≡◌, ◌+◌, ◌<◌, length};
ghost use Rattle.cdef_spec.specs.Distance.{constants_of};
ghost use Rattle.cdef_spec.specs.LoopForm.{signed};
ghost use Rattle.cdef_spec.specs.Picture.{block_rows, block_cols};
ghost use Rattle.frame_shape.specs.Checked.{compare_in};
ghost use Rattle.try_one.specs.Trying.{blocks_tried};

use cdef_spec::DistanceConstants;
use frame_shape::inputs::CompareInput;

// Tries the block in row by and column bx of the blocks, where it counts. `blocks` has room for its twelve trial blocks.
pub fn try_block(
    totals: &mut [i64],
    blocks: &mut [u16],
    i: &CompareInput<'_>,
    by: usize,
    bx: usize,
    c: DistanceConstants,
)
    requires inside { (by < block_rows (compare_in i.now)) × (bx < block_cols (compare_in i.now)) }
    requires constants { c ≡ constants_of (compare_in i.now).depth }
    requires room { length blocks.old ≡ 768 }
    requires totals_so_far { totals.old ≡ signed (blocks_tried i.now by bx) }
    ensures { totals.new ≡ signed (blocks_tried i.now by (bx + 1)) }
{
    if !i.filter.listed.counted(i.visible, by, bx) {
        return;
    }
    try_blocks::make_trials(blocks, &i.filter, by, bx);
    let q = i.filter.listed.shaped;
    let b = q.block_of(by, bx);
    let base = 12 * q.unit_at(by, bx);
    let part = frame_part::part_of(i, by, bx, c);
    try_totals::add_trials(totals, base, &part, blocks, b.width);
}
