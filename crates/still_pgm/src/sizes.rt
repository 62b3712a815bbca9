// Which pictures are accepted: the maximum and the sides; and the padded sizes.
ghost use Rattle.std.specs.Prelude.{◌≤◌, ◌≡◌};
ghost use Rattle.still_pgm.specs.Sizes.{depth_of, step_of, padded, is_taken};

use check_sides::side_taken;

// The depth of a maximum 2^depth - 1, for depth 8 to 12; none for every other maximum.
#[tactic(auto, unfolding(crate::specs::Sizes::depth_of))]
pub fn depth_of(maximum: usize) -> Option<u8>
    ensures { result ≡ depth_of maximum }
{
    match maximum {
        255 => Some(8),
        511 => Some(9),
        1023 => Some(10),
        2047 => Some(11),
        4095 => Some(12),
        _ => None,
    }
}

// How many bytes a sample has.
#[tactic(auto, unfolding(crate::specs::Sizes::step_of))]
pub fn step_of(maximum: usize) -> usize
    ensures { result ≡ step_of maximum }
{
    if maximum <= 255 { 1 } else { 2 }
}

// A side made a multiple of 8.
pub fn padded_side(side: usize) -> usize
    requires { side ≤ 4096 }
    ensures { result ≡ padded side }
{
    side.next_multiple_of(8)
}

// Two sides of 1 to 4,096, and at most 786,432 samples once padded.
pub(crate) fn is_taken(width: usize, height: usize) -> bool
    ensures { result ≡ is_taken width height }
{
    side_taken::<4096>(width)
        && side_taken::<4096>(height)
        && padded_side(width) * padded_side(height) <= 786_432
}
