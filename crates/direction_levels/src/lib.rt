// The samples of a block, each shifted right by depth - 8, less 128.
// Kept as parameters: plane, x, y and depth are what the calls above are given. A struct of them, with BlockIn as its ghost field, would empty the five clauses of one line here
// and in direction_block, but each caller would build it at each block, with the same BlockIn to prove, and the functions here read all four fields one by one.
#![tactic(auto)]

ghost use Rattle.std.specs.Prelude.{◌≡◌, ◌+◌, ◌*◌, ◌/◌, ◌^◌, ◌≤◌, ◌<◌, pos, ◌-ℤ◌, length};
ghost use Rattle.cdef_spec.specs.Document01.{direction_input};
ghost use Rattle.cdef_spec.specs.Lent.{plane_in_full};
ghost use Rattle.direction_levels.specs.Levels.{BlockIn, block_of};

use cdef_spec::full::FullPlane;

// A sample, shifted, less 128.
pub fn level(v: u16, shift: u32) -> i16
    requires { (shift ≤ 4) × (v / 2 ^ shift < 256) }
    ensures { result ≡ pos (v / 2 ^ shift) -ℤ pos 128 }
{
    ((v >> shift) as i16) - 128
}

// The block wholly inside the plane.
// Kept beside levels_edge: with the nearest sample taken in every block, one taken by itself took 1.19 times the time.
// Kept by index, as levels_edge: by array::from_fn, sample k at row k / 8 and column k % 8, it took 1.9 times the time.
fn levels_inside(plane: &FullPlane<'_>, x: usize, y: usize, depth: u8) -> [i16; 64]
    requires inside { (x + 8 ≤ plane.now.width) × (y + 8 ≤ plane.now.height) }
    requires block { BlockIn (plane_in_full plane.now) depth y x }
    ensures { result ≡ block_of (direction_input (plane_in_full plane.now) depth y x) }
{
    let shift = (depth - 8) as u32;
    let mut b = [0i16; 64];
    for i in 0..8usize {
        let at = (y + i) * plane.width + x;
        let to = i * 8;
        for j in 0..8usize {
            b[to + j] = level(plane.samples[at + j], shift);
        }
    }
    b
}

// Any block: beyond the right or bottom edge, the nearest sample is used.
// Kept by index: see levels_inside.
#[tactic(auto, unfolding(cdef_spec::specs::Lent::plane_in_full))]
fn levels_edge(plane: &FullPlane<'_>, x: usize, y: usize, depth: u8) -> [i16; 64]
    requires { BlockIn (plane_in_full plane.now) depth y x }
    ensures { result ≡ block_of (direction_input (plane_in_full plane.now) depth y x) }
{
    let shift = (depth - 8) as u32;
    let mut b = [0i16; 64];
    for i in 0..8usize {
        let row = (y + i).min(plane.height - 1) * plane.width;
        let to = i * 8;
        for j in 0..8usize {
            let at = row + (x + j).min(plane.width - 1);
            b[to + j] = level(plane.samples[at], shift);
        }
    }
    b
}

// The block at (x, y).
#[tactic(auto, unfolding(cdef_spec::specs::Lent::plane_in_full))]
pub fn levels(plane: &FullPlane<'_>, x: usize, y: usize, depth: u8) -> [i16; 64]
    requires { BlockIn (plane_in_full plane.now) depth y x }
    ensures { result ≡ block_of (direction_input (plane_in_full plane.now) depth y x) }
{
    if plane.width < x + 8 || plane.height < y + 8 {
        levels_edge(plane, x, y, depth)
    } else {
        levels_inside(plane, x, y, depth)
    }
}
