// A row of blocks, added to the units' totals.
// Kept with a block's place in each contract, the constants and the lengths: as in frame_filter and lib.rt.
// Kept as a loop over numbers: a block's place is computed from its column, and no list of blocks is there to go over; `(0..n).for_each(|bx| ..)` is the same call in a closure.
ghost use Rattle.std.specs.Prelude.{◌≡◌, List, ℕ, ◌≤◌, ◌<◌, length};
ghost use Rattle.cdef_spec.specs.Distance.{constants_of};
ghost use Rattle.cdef_spec.specs.FrameCalls.{scratch_length};
ghost use Rattle.cdef_spec.specs.LoopForm.{signed, measure_row};
ghost use Rattle.cdef_spec.specs.Picture.{block_rows, block_cols, units};
ghost use Rattle.arith_totals.specs.Small.{Small};
ghost use Rattle.frame_shape.specs.Checked.{compare_in};
ghost use Rattle.measure_plane.specs.Measure.{SmallRow, measure_one, distance_in};

use cdef_spec::DistanceConstants;
use frame_shape::inputs::CompareInput;
use frame_shape::params::TakenPair;

// Adds a counted block's distance to its unit's total; another block adds nothing.
fn measure_one(
    totals: &mut [i64],
    scratch: &mut [u16],
    i: &CompareInput<'_>,
    p: TakenPair,
    by: usize,
    bx: usize,
    c: DistanceConstants,
)
    requires inside { (by < block_rows (compare_in i.now)) × (bx < block_cols (compare_in i.now)) }
    requires constants { c ≡ constants_of (compare_in i.now).depth }
    requires lengths { (length scratch.old ≡ scratch_length (compare_in i.now)) × (length totals.old ≡ units (compare_in i.now)) }
    requires small { (t : List ℕ) × (totals.old ≡ signed t) × Small t }
    ensures { (t : List ℕ) → totals.old ≡ signed t → totals.new ≡ signed (measure_one (compare_in i.now) i.now.visible (distance_in i.now p.pair) by bx t) }
{
    if !i.filter.listed.counted(i.visible, by, bx) {
        return;
    }
    let n = crate::block::measure_block(scratch, i, p, by, bx, c);
    arith_totals::add_at(totals, i.filter.listed.shaped.unit_at(by, bx), n);
}

// Adds the distances of row by of the blocks.
pub fn measure_row(
    totals: &mut [i64],
    scratch: &mut [u16],
    i: &CompareInput<'_>,
    p: TakenPair,
    by: usize,
    c: DistanceConstants,
)
    requires inside { by < block_rows (compare_in i.now) }
    requires constants { c ≡ constants_of (compare_in i.now).depth }
    requires lengths { (length scratch.old ≡ scratch_length (compare_in i.now)) × (length totals.old ≡ units (compare_in i.now)) }
    requires small { (t : List ℕ) × (totals.old ≡ signed t) × SmallRow (compare_in i.now) i.now.visible (distance_in i.now p.pair) by t }
    ensures { (t : List ℕ) → totals.old ≡ signed t → totals.new ≡ signed (measure_row (compare_in i.now) i.now.visible (distance_in i.now p.pair) by t (block_cols (compare_in i.now))) }
{
    for bx in 0..i.filter.listed.shaped.picture.width / 8 {
        measure_one(totals, scratch, i, p, by, bx, c);
    }
}
