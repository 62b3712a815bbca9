// Taps straight from a plane: their offsets, their values, and one sample filtered from them.
#![tactic(auto)]

pub mod steps; // steps.rt: the offsets of a direction's taps
pub mod load; // load.rt: a tap and its opposite
pub mod plain; // plain.rt: one sample from its taps
