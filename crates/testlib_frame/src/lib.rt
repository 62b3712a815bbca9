// Frames of AV1 streams before and after CDEF, out of files. Their layout is in crates/test_frames/data/README.md.
#![tactic(auto)]

pub mod bytes; // bytes.rt: what of a file has not been read
pub mod frame; // frame.rt: the flags, the strengths and the samples of a file
pub mod header; // header.rt: the numbers at the head of a file
