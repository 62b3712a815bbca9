// A still from its numbers to its totals: the damping out of text, the calls, totals compared.
#![tactic(auto)]

pub mod damping; // damping.rt: a damping out of text
pub mod refusals; // refusals.rt: a call that refused
pub mod steps; // steps.rt: the calls, one after the other
pub mod totals; // totals.rt: totals compared
