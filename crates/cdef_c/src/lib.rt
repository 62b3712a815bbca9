// The C entries. A call returns its error code (RULES, Questions), 0 where the work is done, and writes only then.
#![tactic(auto, unfolding(cdef_spec::specs::Lent::plane_in, cdef_spec::specs::Answers::read_found))]

mod answer; // answer.rt: answers as error codes
pub mod applying; // applying.rt: a plane filtered
pub mod direction; // direction.rt: the direction of a block
pub mod directions; // directions.rt: the direction pass
pub mod distance; // distance.rt: the distance of two blocks
pub mod filter; // filter.rt: the block filter
pub mod measuring; // measuring.rt: one total per unit
pub mod numbers; // numbers.rt: the calls on single numbers
mod pictures; // pictures.rt: the picture of a frame call
pub mod root; // root.rt: the square root by itself
pub mod trial; // trial.rt: the trial of a block
pub mod trying; // trying.rt: twelve totals per unit
