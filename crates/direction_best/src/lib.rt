// The best of the eight directions, by their costs.
#![tactic(auto)]

ghost use Rattle.std.specs.Prelude.{◌≡◌};
ghost use Rattle.direction_best.specs.Best.{best_of};

use cdef_spec::Found;

// The largest cost, and the lowest direction on a tie; the variance is its excess over the cost of the direction four further, shifted right by 10.
pub fn best(cost: &[u32; 8]) -> Found
    ensures { result ≡ best_of cost.now }
{
    let mut direction = 0usize;
    let mut most = 0u32;
    for (d, c) in cost.iter().enumerate() {
        if most < *c {
            most = *c;
            direction = d;
        }
    }
    let across = (direction + 4) % 8;
    Found {
        direction: direction as u8,
        variance: (most - cost[across]) >> 10,
    }
}
