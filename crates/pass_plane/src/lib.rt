// The direction pass: the direction and the variance of each 8 by 8 block of a luma plane.
// Kept as parameters: the lists and the plane, as in pass_one; `a` and `s`, as in pass_eight.
#![tactic(auto)]

ghost use Rattle.std.specs.Prelude.{◌≡◌, ℕ, ◌+◌, ◌*◌, ◌/◌, ◌%◌, ◌^◌, ◌≤◌, ◌<◌, get_or, length};
ghost use Rattle.cdef_spec.specs.Words.{table};
ghost use Rattle.cdef_spec.specs.Document01.{block_direction, block_variance};
ghost use Rattle.cdef_spec.specs.Lent.{plane_in_full};
ghost use Rattle.pass_one.specs.Pass.{PassIn, Filled};

use cdef_spec::full::FullPlane;

// A row of blocks: eight at a time, and the rest one by one.
// Kept by index, as the rows below: the place of a block's samples is computed from its row and column. chunks_exact_mut(8) over both lists, zipped, would give eight entries of
// each, but not where their samples are: the column would be counted beside it, and the last blocks of a row, up to seven, would be left over in two remainders.
fn row(
    dirs: &mut [u8],
    vars: &mut [u32],
    plane: &FullPlane<'_>,
    by: usize,
    depth: u8,
    a: &mut [i16; 512],
    s: &mut [i16; 512],
)
    requires pass_in { PassIn (plane_in_full plane.now) depth dirs.old vars.old × (by < plane.now.height / 8) }
    requires filled { Filled (plane_in_full plane.now) depth (by * (plane.now.width / 8)) dirs.old vars.old }
    ensures { Filled (plane_in_full plane.now) depth ((by + 1) * (plane.now.width / 8)) dirs.new vars.new }
{
    let whole = plane.width / 64;
    for u in 0..whole {
        pass_eight::eight_blocks(dirs, vars, plane, u * 8, by, depth, a, s);
    }
    for bx in whole * 8..plane.width / 8 {
        pass_one::one_block(dirs, vars, plane, bx, by, depth);
    }
}

// Fills dirs and vars, one entry per block, row by row. The sides are multiples of 8. Kept by index: see `row`.
pub fn direction_pass(dirs: &mut [u8], vars: &mut [u32], plane: &FullPlane<'_>, depth: u8)
    requires one_entry_per_block { (length dirs.old ≡ plane.now.height / 8 * (plane.now.width / 8))
        × (length vars.old ≡ plane.now.height / 8 * (plane.now.width / 8)) }
    requires depth_8_to_12 { (8 ≤ depth) × (depth ≤ 12) }
    requires samples_fit { (k : ℕ) → get_or plane.now.samples.now k 0 < 2 ^ depth }
    ensures dirs_after { dirs.new ≡ table (plane.now.height / 8 * (plane.now.width / 8))
        (λ b. block_direction (plane_in_full plane.now) depth (b / (plane.now.width / 8) * 8) (b % (plane.now.width / 8) * 8)) }
    ensures vars_after { vars.new ≡ table (plane.now.height / 8 * (plane.now.width / 8))
        (λ b. block_variance (plane_in_full plane.now) depth (b / (plane.now.width / 8) * 8) (b % (plane.now.width / 8) * 8)) }
{
    let mut a = [0i16; 512];
    let mut s = [0i16; 512];
    for by in 0..plane.height / 8 {
        row(dirs, vars, plane, by, depth, &mut a, &mut s);
    }
}
