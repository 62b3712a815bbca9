// One block: filtered into the scratch where its pair filters, and its distance.
// Kept with a block's place in each contract, and the constants: as in frame_filter and lib.rt.
ghost use Rattle.std.specs.Prelude.{◌≡◌, ◌*◌, ◌^◌, ◌≤◌, ◌<◌, length};
ghost use Rattle.cdef_spec.specs.Distance.{constants_of};
ghost use Rattle.cdef_spec.specs.FrameCalls.{scratch_length};
ghost use Rattle.cdef_spec.specs.Picture.{block_rows, block_cols, block_width, block_height, visible_rows, visible_cols, at_place, block_distance};
ghost use Rattle.frame_shape.specs.Checked.{compare_in};
ghost use Rattle.measure_plane.specs.Measure.{LowBlock, row_sample, distance_in};

use cdef_spec::DistanceConstants;
use frame_shape::inputs::CompareInput;
use frame_shape::params::TakenPair;

// The distance of the visible part of a block between the original and the block's rows, filtered or not.
fn rows_distance(
    rows: &[u16],
    i: &CompareInput<'_>,
    by: usize,
    bx: usize,
    c: DistanceConstants,
) -> u64
    requires inside { (by < block_rows (compare_in i.now)) × (bx < block_cols (compare_in i.now)) }
    requires begun { (by * block_height (compare_in i.now) ≤ visible_rows (compare_in i.now) i.now.visible)
        × (bx * block_width (compare_in i.now) ≤ visible_cols (compare_in i.now) i.now.visible) }
    requires constants { c ≡ constants_of (compare_in i.now).depth }
    requires room { length rows.now ≡ scratch_length (compare_in i.now) }
    requires low { LowBlock (compare_in i.now) bx rows.now }
    ensures distance { result ≡ block_distance (compare_in i.now) i.now.visible by bx (at_place (compare_in i.now) i.now.original.samples.now)
        (row_sample (compare_in i.now) rows.now (by * block_height (compare_in i.now))) }
    ensures small { result < 2 ^ 53 }
{
    let part = frame_part::part_of(i, by, bx, c);
    let b = i.filter.listed.shaped.block_of(by, bx);
    distance_visible::distance_cut(&part, rows, b.x, part.pitch)
}

// The distance of a block, filtered with a pair or, with 0, 0, unfiltered: then its rows are the plane's.
pub fn measure_block(
    scratch: &mut [u16],
    i: &CompareInput<'_>,
    p: TakenPair,
    by: usize,
    bx: usize,
    c: DistanceConstants,
) -> u64
    requires inside { (by < block_rows (compare_in i.now)) × (bx < block_cols (compare_in i.now)) }
    requires begun { (by * block_height (compare_in i.now) ≤ visible_rows (compare_in i.now) i.now.visible)
        × (bx * block_width (compare_in i.now) ≤ visible_cols (compare_in i.now) i.now.visible) }
    requires constants { c ≡ constants_of (compare_in i.now).depth }
    requires room { length scratch.old ≡ scratch_length (compare_in i.now) }
    ensures distance { result ≡ distance_in i.now p.pair by bx }
    ensures small { result < 2 ^ 53 }
{
    let y = i.filter.listed.shaped.block_of(by, bx).y;
    if frame_shape::params::is_off(p.pair) {
        let start = y * i.filter.plane.width;
        let rows = &i.filter.plane.samples[start..start + scratch.len()];
        return rows_distance(rows, i, by, bx, c);
    }
    frame_filter::filter_block(scratch, y, &i.filter, p, by, bx);
    rows_distance(scratch, i, by, bx, c)
}
