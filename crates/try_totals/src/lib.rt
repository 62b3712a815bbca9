// Twelve distances added to totals.
// Kept as three parameters: the part lies on the original, the blocks in the room that trying writes anew for each; a struct of both would be built for each block only to be passed twice.
#![tactic(auto)]

ghost use Rattle.std.specs.Prelude.{◌≡◌, ◌+◌, ◌≤◌, length};
ghost use Rattle.cdef_spec.specs.LoopForm.{signed, add_turns};
ghost use Rattle.arith_sample.specs.Upto.{upto};
ghost use Rattle.arith_totals.specs.Turns.{plain_of, Low};
ghost use Rattle.try_totals.specs.Totals.{TrialsTaken, part_distances};

use distance_visible::Part;
use std::array;

// The distances between a part of the original and the trial blocks, one by one.
fn cut_distances(part: &Part<'_>, blocks: &[u16], step: usize) -> [u64; 12]
    requires { TrialsTaken part.now blocks.now step }
    ensures { result ≡ upto (part_distances part.now blocks.now step) 12 }
{
    array::from_fn(|t| distance_visible::distance_cut(part, blocks, t * 64, step))
}

// The same distances: whole luma blocks, and chroma blocks whose samples fill runs of sixteen, in loops of their own.
fn distances(part: &Part<'_>, blocks: &[u16], step: usize) -> [u64; 12]
    requires rows_inside { (part.now.cols ≤ step) × (step ≤ 8) }
    requires trials { TrialsTaken part.now blocks.now step }
    ensures { result ≡ upto (part_distances part.now blocks.now step) 12 }
{
    match part.weights {
        Some(c) if part.rows + part.cols == 16 => {
            let a = distance_sums::block_of(part.samples, part.start, part.pitch);
            try_whole::whole_distances(&a, blocks, c)
        }
        None if step == part.cols && arith_numbers::packs(part.cols, part.rows) => {
            try_packed::packed_distances(
                part.samples,
                part.start,
                part.pitch,
                blocks,
                part.rows,
                part.cols,
            )
        }
        _ => cut_distances(part, blocks, step),
    }
}

// Adds to twelve totals, from `base` on, the distances between a part of the original and the trial blocks.
pub fn add_trials(totals: &mut [i64], base: usize, part: &Part<'_>, blocks: &[u16], step: usize)
    requires room { (base + 12 ≤ length totals.old) × Low totals.old }
    requires rows_inside { (part.now.cols ≤ step) × (step ≤ 8) }
    requires trials { TrialsTaken part.now blocks.now step }
    ensures { totals.new ≡ signed (add_turns (plain_of totals.old) base (part_distances part.now blocks.now step) 12) }
{
    let d = distances(part, blocks, step);
    arith_totals::add_twelve(totals, base, d);
}
