// The public frame calls. Each validates its input by RULES, Questions, in order, then works; no function here requires anything.
// The calls on single numbers and blocks are in cdef_blocks, applying with the pairs as two lists in cdef_lists.
#![tactic(auto)]

pub mod applying; // applying.rt: a plane filtered
pub mod measuring; // measuring.rt: one total per unit
pub mod pass; // pass.rt: the direction pass
pub mod trying; // trying.rt: twelve totals per unit
