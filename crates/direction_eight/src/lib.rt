// The directions and variances of eight blocks in lanes: in each group of eight entries, entry l is of block l.
// Kept beside direction_block, which finds one block at a time: a plane's width in blocks need not be a multiple of 8, and the pass takes 32 ns per block by lanes, 79 by blocks.
// Kept as a clause: Within, as in direction_lane_sums.
#![tactic(auto)]

ghost use Rattle.std.specs.Prelude.{◌≡◌, length};
ghost use Rattle.arith_sample.specs.Bounds.{Within};
ghost use Rattle.direction_eight.specs.Best.{found_by_samples};

mod best; // best.rt: the best direction of each block

// The direction and the variance of each block.
// Kept as two arrays, not eight `Found`: entry l of each is lane l, one instruction takes eight entries, and pass_eight copies each array into the list that C passes for it.
#[derive(Drop)]
pub struct Found8 {
    pub directions: [u8; 8],
    pub variances: [u32; 8],
}

// Of the eight blocks whose samples are s: sample (i, j) of block l at 64 i + 8 j + l, less 128.
pub fn eight(s: &[i16; 512]) -> Found8
    requires { Within s.now 128 }
    ensures { result ≡ found_by_samples s.now }
{
    best::found(&direction_lane_costs::costs(s))
}
