// Binary PGM files (P5): the header, the samples as a padded plane, and the visible part of a plane as bytes again.
#![tactic(auto)]

pub mod decode; // decode.rt: the padded plane of a file
pub mod encode; // encode.rt: the visible part of a plane as bytes
pub mod format; // format.rt: the header of a file that is accepted, or what is wrong with the file
pub mod header; // header.rt: the numbers of a header
pub mod sizes; // sizes.rt: which pictures are accepted, and their padded sizes
