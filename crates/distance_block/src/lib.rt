// The distance of two 8 by 8 blocks: plain squares, that is the sum of squared differences (SSE), and the weighted distance.
// Kept with the depth in each contract, as in distance_weight, and a list, x and y as parameters: the C interface gives the other plane by its samples alone.
#![tactic(auto)]

ghost use Rattle.std.specs.Prelude.{◌≡◌, true, ℕ, ◌+◌, ◌*◌, ◌^◌, ◌≤◌, ◌<◌, length};
ghost use Rattle.cdef_spec.specs.Lent.{plane_in_full};
ghost use Rattle.cdef_spec.specs.Questions.{cut_taken};
ghost use Rattle.cdef_spec.specs.Distance.{constants_of, spread};
ghost use Rattle.cdef_spec.specs.BlockCalls.{plane_squares, plane_distance};
ghost use Rattle.distance_weight.specs.Weighing.{OfDepth};
ghost use Rattle.distance_sums.specs.Blocks.{cell, Below, weighted_by};
ghost use Rattle.distance_block.specs.PlaneLaws.{beside};

use cdef_spec::DistanceConstants;
use cdef_spec::full::FullPlane;

// s2 - (s² + 32) / 64, with s the sum of 64 samples and s2 that of their squares, which is the sum of squared differences from 64 zeros.
pub fn spread_of(a: &[u16; 64]) -> u64
    requires { Below a.now 4096 }
    ensures { result ≡ spread (cell a.now) }
{
    let s = distance_sums::total(a) as u64;
    let s2 = distance_sums::block_squares(a, &[0; 64]) as u64;
    s2 - (s * s + 32) / 64
}

// The weighted distance of 64 samples and 64 others.
pub fn block_distance(a: &[u16; 64], b: &[u16; 64], c: DistanceConstants) -> u64
    requires { (depth : ℕ) × OfDepth c depth × Below a.now (2 ^ depth) × Below b.now (2 ^ depth) }
    ensures { result ≡ weighted_by c (cell a.now) (cell b.now) }
{
    let x = spread_of(a);
    let y = spread_of(b);
    let e = distance_sums::block_squares(a, b) as u64;
    distance_weight::weighted(x, y, e, c)
}

// The sum of squared differences of the 8 by 8 blocks at (x, y) of a plane and of another of its sides, cropped to the plane.
pub fn block_sse_8x8(orig: &FullPlane<'_>, other: &[u16], x: usize, y: usize) -> u64
    requires on_plane { (length other.now ≡ orig.now.width * orig.now.height) × (x < orig.now.width) × (y < orig.now.height) }
    requires samples_taken { (depth : ℕ) × (depth ≤ 12) × (cut_taken (plane_in_full orig.now) depth y x ≡ true)
        × (cut_taken (beside orig.now other.now) depth y x ≡ true) }
    ensures { result ≡ plane_squares (plane_in_full orig.now) other.now y x }
{
    let rows = 8usize.min(orig.height - y);
    let cols = 8usize.min(orig.width - x);
    let at = y * orig.width + x;
    if rows + cols < 16 {
        return distance_sums::squares(
            orig.samples,
            at,
            orig.width,
            other,
            at,
            orig.width,
            rows,
            cols,
        ) as u64;
    }
    let a = distance_sums::block_of(orig.samples, at, orig.width);
    let b = distance_sums::block_of(other, at, orig.width);
    distance_sums::block_squares(&a, &b) as u64
}

// The weighted distance of the 8 by 8 blocks at (x, y) of a plane and of another of its sides; plain squares where they cross the right or bottom edge.
pub fn cdef_dist_8x8(
    orig: &FullPlane<'_>,
    other: &[u16],
    x: usize,
    y: usize,
    c: DistanceConstants,
) -> u64
    requires on_plane { (length other.now ≡ orig.now.width * orig.now.height) × (x < orig.now.width) × (y < orig.now.height) }
    requires samples_taken { (depth : ℕ) × OfDepth c depth × (cut_taken (plane_in_full orig.now) depth y x ≡ true)
        × (cut_taken (beside orig.now other.now) depth y x ≡ true) }
    ensures { (depth : ℕ) → c ≡ constants_of depth → result ≡ plane_distance (plane_in_full orig.now) other.now depth y x }
{
    if orig.width < x + 8 || orig.height < y + 8 {
        return block_sse_8x8(orig, other, x, y);
    }
    let at = y * orig.width + x;
    let a = distance_sums::block_of(orig.samples, at, orig.width);
    let b = distance_sums::block_of(other, at, orig.width);
    block_distance(&a, &b, c)
}
