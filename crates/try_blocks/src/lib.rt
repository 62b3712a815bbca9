// The trial blocks of a block of a plane.
// Kept with a block's place in the contract: by and bx are in range of the picture in `i`, so that `BlockInput { input: FilterInput, by, bx, ghost inside }` would copy the picture for each block.
#![tactic(auto)]

ghost use Rattle.std.specs.Prelude.{◌≡◌, ◌<◌, length};
ghost use Rattle.cdef_spec.specs.Picture.{block_rows, block_cols};
ghost use Rattle.frame_shape.specs.Checked.{filter_in};
ghost use Rattle.try_blocks.specs.TrialBlocks.{trial_blocks};

use frame_shape::inputs::FilterInput;
use trial_strengths::TrialParams;

// The twelve trial blocks of the block in row by and column bx of the blocks.
pub fn make_trials(blocks: &mut [u16], i: &FilterInput<'_>, by: usize, bx: usize)
    requires inside { (by < block_rows (filter_in i.now)) × (bx < block_cols (filter_in i.now)) }
    requires room { length blocks.old ≡ 768 }
    ensures { blocks.new ≡ trial_blocks (filter_in i.now) i.now.damping i.now.plane.samples.now by bx blocks.old }
{
    let q = i.listed.shaped;
    let b = q.block_of(by, bx);
    let k = q.block_at(by, bx);
    let way = q.way_of(k);
    let dir = q.dir_of(k);
    let damping = q.damping_of(i.damping);
    let params = TrialParams {
        way,
        dir,
        damping,
        depth: q.picture.depth,
    };
    trial_block::block::cdef_block_candidates(blocks, &i.plane, b, params);
}
