// Questions 1, 2, 4 and 5 of single numbers: the depth, sides, a plane's length, a block's corner and sides. Each test has its definition's name; no function here requires anything.
#![tactic(auto, unfolding(cdef_spec::specs::Questions::depth_taken, cdef_spec::specs::Questions::side_taken, cdef_spec::specs::Questions::luma_side_taken, cdef_spec::specs::Questions::full, cdef_spec::specs::Lent::plane_in, cdef_spec::specs::Questions::corner_taken))]

ghost use Rattle.std.specs.Prelude.{◌≡◌, ◌&&◌, leb};
ghost use Rattle.cdef_spec.specs.Questions.{depth_taken, side_taken, luma_side_taken, full, corner_taken};
ghost use Rattle.cdef_spec.specs.Lent.{plane_in};

use cdef_spec::Plane;

// 1: a bit depth, 8 to 12.
pub fn depth_taken(depth: u8) -> bool
    ensures { result ≡ depth_taken depth }
{
    matches!(depth, 8..=12)
}

// 2 and 5: a side, 1 to `MOST`: 4,096 of a plane, 8 of a block.
pub fn side_taken<const MOST: usize>(n: usize) -> bool
    ensures { result ≡ leb 1 n && leb n MOST }
{
    (1..=MOST).contains(&n)
}

// 2: a side of luma in a frame call, 1 to 4,096 and a multiple of 8.
pub fn luma_side_taken(n: usize) -> bool
    ensures { result ≡ luma_side_taken n }
{
    side_taken::<4096>(n) && n % 8 == 0
}

// 4: a plane holds exactly width * height samples. The sides are tested first, so that the product fits.
pub fn full(plane: &Plane<'_>) -> bool
    ensures { result ≡ (side_taken plane.now.width && side_taken plane.now.height) && full (plane_in plane.now) }
{
    side_taken::<4096>(plane.width)
        && side_taken::<4096>(plane.height)
        && plane.samples.len() == plane.width * plane.height
}

// 5: a corner in the plane, whatever the plane's contents.
pub fn corner_taken(plane: &Plane<'_>, x: usize, y: usize) -> bool
    ensures { result ≡ corner_taken (plane_in plane.now) y x }
{
    x < plane.width && y < plane.height
}
