// Synthetic pictures of 72 by 136, 9 by 17 blocks and 2 by 3 units, of which 70 by 131 is visible, and what is printed of one.
#![tactic(auto)]

pub mod blocks; // blocks.rt: the skip flags, and the directions in turn
pub mod picture; // picture.rt: what makes a picture, and its samples and pairs
pub mod report; // report.rt: what is printed
mod samples; // samples.rt: slopes and squares with grain
pub mod table; // table.rt: the pictures
