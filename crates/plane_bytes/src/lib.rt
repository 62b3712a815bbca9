// Depth 8, rows of a block two samples or more inside a plane: sixteen samples at once in bytes.
#![tactic(auto)]

pub mod eights; // eights.rt: rows of eight samples, two at a time
mod lanes; // lanes.rt: sixteen samples from their taps
mod byte; // byte.rt: one sample from its taps
