// The distance of the visible part of a block, as trying and measuring add it up.
#![tactic(auto)]

ghost use Rattle.std.specs.Prelude.{ℕ, ◌^◌, ◌≤◌, ◌<◌, ◌≡◌};
ghost use Rattle.distance_sums.specs.Blocks.{at as sample_in, Within};
ghost use Rattle.distance_visible.specs.Cut.{cut_distance, Weights};

use cdef_spec::DistanceConstants;

// The visible part of a block of an original: rows by cols samples of a depth, from a start on and with a row pitch. Where there are weights, a whole block's distance
// is weighted: they are a luma plane's.
#[derive(Clone, Copy)]
pub struct Part<'a> {
    pub samples: &'a [u16],
    pub start: usize,
    pub pitch: usize,
    pub rows: usize,
    pub cols: usize,
    pub depth: u8,
    pub weights: Option<DistanceConstants>,
    pub ghost sides: { (rows ≤ 8) × (cols ≤ 8) },
    pub ghost within: { Within samples.now start pitch rows cols (2 ^ depth) },
    pub ghost weighs: { Weights weights depth },
}

// Between the part and as many samples of another list, from `from` on and with the row pitch `step`: weighted for a whole luma block, else plain squares.
pub fn distance_cut(part: &Part<'_>, other: &[u16], from: usize, step: usize) -> u64
    requires { Within other.now from step part.now.rows part.now.cols (2 ^ part.now.depth) }
    ensures { (result ≡ cut_distance part.now.weights part.now.rows part.now.cols (sample_in part.now.samples.now part.now.start part.now.pitch) (sample_in other.now from step))
        × (result < 2 ^ 53) }
{
    if let Some(c) = part.weights {
        if part.rows + part.cols == 16 {
            let a = distance_sums::block_of(part.samples, part.start, part.pitch);
            let b = distance_sums::block_of(other, from, step);
            return distance_block::block_distance(&a, &b, c);
        }
    }
    distance_sums::squares(
        part.samples,
        part.start,
        part.pitch,
        other,
        from,
        step,
        part.rows,
        part.cols,
    ) as u64
}
