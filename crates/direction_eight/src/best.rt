// The best direction of each of eight blocks, and its variance.
ghost use Rattle.std.specs.Prelude.{◌≡◌, ◌+◌, ◌<◌};
ghost use Rattle.direction_eight.specs.Best.{bests_of, found_by_costs};

use crate::Found8;
use std::array;

// The best so far of each lane. Kept as two arrays: entry l of each is lane l, so that one instruction takes eight entries.
#[derive(Drop)]
pub struct Best8 {
    pub directions: [u32; 8],
    pub most: [u32; 8],
}

// One more direction.
fn better(b: &Best8, c: &[u32; 64], d: usize) -> Best8
    requires { (d < 8) × (b.now ≡ bests_of c.now d) }
    ensures { result ≡ bests_of c.now (d + 1) }
{
    Best8 {
        directions: array::from_fn(|l| if b.most[l] < c[d * 8 + l] {
            d as u32
        } else {
            b.directions[l]
        }),
        most: array::from_fn(|l| b.most[l].max(c[d * 8 + l])),
    }
}

// All eight directions. Kept by index: a direction is a number, stored for each lane, and its costs begin at 8 d. The contract of `better` is about the whole list, the best of
// its first d and d + 1 directions; given a chunk of chunks_exact(8) it would need the list beside it all the same.
fn best(c: &[u32; 64]) -> Best8
    ensures { result ≡ bests_of c.now 8 }
{
    let mut b = Best8 {
        directions: [0u32; 8],
        most: [0u32; 8],
    };
    for d in 0..8usize {
        b = better(&b, c, d);
    }
    b
}

// The best directions, with their costs' excess over those of the directions four further, shifted right by 10.
pub fn found(c: &[u32; 64]) -> Found8
    ensures { result ≡ found_by_costs c.now }
{
    let b = best(c);
    Found8 {
        directions: array::from_fn(|l| b.directions[l] as u8),
        variances: array::from_fn(|l| {
            let across = ((b.directions[l] + 4) % 8) as usize;
            (b.most[l] - c[across * 8 + l]) >> 10
        }),
    }
}
