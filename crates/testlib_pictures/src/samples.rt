// The samples of a synthetic picture: slopes and squares with grain. The original has the same slopes and squares and other grain.
ghost use Rattle.std.specs.Prelude.{◌≤◌, ◌<◌, ◌≡◌, IfOk, vec_len};

use std::alloc::{AllocError, Global};

// 0 to 255, by a position and a seed.
fn noise(k: usize, seed: u16) -> u8 {
    let at = (k % 65536) as u16;
    let a = at.wrapping_mul(40503).wrapping_add(seed.wrapping_mul(9973));
    let b = a.wrapping_mul(25173).wrapping_add(13849);
    (b / 256) as u8
}

// Slopes with squares of 6 by 5 on them.
fn texture(x: usize, y: usize) -> u8
    ensures { result ≤ 159 }
{
    let slope = ((x % 96 * 2 + y % 96) % 96) as u8;
    if (x / 6 + y / 5) % 2 == 0 {
        slope
    } else {
        slope + 64
    }
}

// A value of 8 bits at depth 8 or, with two more bits, at depth 10.
fn at_depth(value: u8, fine: u8, depth: u8) -> u16 {
    if depth == 8 {
        return u16::from(value);
    }
    u16::from(value) * 4 + u16::from(fine % 4)
}

fn sample(k: usize, width: usize, depth: u8, seed: u16) -> u16
    requires { 0 < width }
{
    let grain = noise(k, seed);
    let value = 26 + texture(k % width, k / width) + grain % 36;
    at_depth(value, grain, depth)
}

// A plane of so many samples, in rows of the width.
pub fn plane(
    alloc: Global,
    count: usize,
    width: usize,
    depth: u8,
    seed: u16,
) -> Result<Vec<u16>, AllocError>
    requires { 0 < width }
    ensures { IfOk result (λ v. vec_len v ≡ count) }
{
    (0..count)
        .map(|k| sample(k, width, depth, seed))
        .collect(alloc)
}
