// Measuring: per unit, the distance between an original and a plane, filtered with one pair or unfiltered.
// Kept with the constants in each contract: made once for all blocks, they stand beside the input, whose depth they are of; a field of it would be made where trying and applying take the input too.
// Kept with the two lists' lengths: both are written, so that `Lists { totals: &mut [i64], scratch: &mut [u16], ghost lengths }` would be lent anew for each block, and its lengths are of the picture.
// Kept as a loop over numbers: as in totals.rt.
#![tactic(auto)]

pub mod block; // block.rt: one block
pub mod totals; // totals.rt: a row of blocks

ghost use Rattle.std.specs.Prelude.{◌≡◌, ◌≤◌, pos, length, replicate};
ghost use Rattle.cdef_spec.specs.Words.{table};
ghost use Rattle.cdef_spec.specs.Picture.{units, measured_total};
ghost use Rattle.cdef_spec.specs.FrameCalls.{scratch_length};
ghost use Rattle.frame_shape.specs.Checked.{compare_in};

use frame_shape::inputs::CompareInput;
use frame_shape::params::TakenPair;

// One total per unit, for luma and chroma; the scratch is returned all zero.
pub fn measure_plane(totals: &mut [i64], scratch: &mut [u16], i: &CompareInput<'_>, p: TakenPair)
    requires lengths { (length totals.old ≡ units (compare_in i.now)) × (length scratch.old ≡ scratch_length (compare_in i.now)) }
    ensures totals_after { totals.new ≡ table (units (compare_in i.now)) (λ u. pos (measured_total (compare_in i.now) i.now.filter.damping i.now.visible
        i.now.filter.plane.samples.now i.now.original.samples.now p.pair u)) }
    ensures scratch_after { scratch.new ≡ replicate (scratch_length (compare_in i.now)) 0 }
{
    let q = i.filter.listed.shaped.picture;
    let c = distance_weight::constants_of(q.depth);
    totals.fill(0);
    for by in 0..q.height / 8 {
        totals::measure_row(totals, scratch, i, p, by, c);
    }
    scratch.fill(0);
}
