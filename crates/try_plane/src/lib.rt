// Trying: per unit of a plane, the twelve totals of distances between the original and the trial blocks of the snapshot.
// Kept as loops over numbers: a block's place is computed from its row and column, and no list of blocks is there to go over; `(0..n).for_each(|bx| ..)` is the same call in a closure.
// Kept with the constants in the contract of a row: made once for all blocks, they stand beside the input, whose depth they are of; as its field they would be made for applying too.
#![tactic(auto)]

ghost use Rattle.std.specs.Prelude.{◌≡◌, ◌+◌, ◌*◌, ◌/◌, ◌%◌, ◌<◌, pos, length};
ghost use Rattle.cdef_spec.specs.Words.{table};
ghost use Rattle.cdef_spec.specs.Distance.{constants_of};
ghost use Rattle.cdef_spec.specs.Picture.{block_rows, units, tried_total};
ghost use Rattle.cdef_spec.specs.LoopForm.{signed};
ghost use Rattle.frame_shape.specs.Checked.{compare_in};
ghost use Rattle.try_one.specs.Trying.{rows_tried};

use cdef_spec::DistanceConstants;
use frame_shape::inputs::CompareInput;

// Tries a row of blocks.
fn try_row(
    totals: &mut [i64],
    blocks: &mut [u16],
    i: &CompareInput<'_>,
    by: usize,
    c: DistanceConstants,
)
    requires inside { by < block_rows (compare_in i.now) }
    requires constants { c ≡ constants_of (compare_in i.now).depth }
    requires room { length blocks.old ≡ 768 }
    requires totals_so_far { totals.old ≡ signed (rows_tried i.now by) }
    ensures { totals.new ≡ signed (rows_tried i.now (by + 1)) }
{
    for bx in 0..i.filter.listed.shaped.picture.width / 8 {
        try_one::try_block(totals, blocks, i, by, bx, c);
    }
}

// The twelve totals of every unit.
pub fn try_plane(totals: &mut [i64], i: &CompareInput<'_>)
    requires { length totals.old ≡ 12 * units (compare_in i.now) }
    ensures { totals.new ≡ table (12 * units (compare_in i.now)) (λ k. pos (tried_total (compare_in i.now) i.now.filter.damping i.now.visible i.now.filter.plane.samples.now
        i.now.original.samples.now (k / 12) (k % 12))) }
{
    let q = i.filter.listed.shaped.picture;
    let mut blocks = [0u16; 768]; // room for the twelve trial blocks of a block
    let c = distance_weight::constants_of(q.depth);
    totals.fill(0);
    for by in 0..q.height / 8 {
        try_row(totals, &mut blocks, i, by, c);
    }
}
