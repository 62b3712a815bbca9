// The public calls on single numbers and on one block. Each validates its input by RULES, Questions, in order, then works; no function here requires anything.
#![tactic(auto, unfolding(cdef_spec::specs::Answers::read, cdef_spec::specs::Answers::read_found, cdef_spec::specs::Answers::code_of, cdef_spec::specs::Answers::error_code, cdef_spec::specs::Answers::result_of, cdef_spec::specs::BlockCalls::constrain_outcome, cdef_spec::specs::BlockCalls::adjust_outcome, cdef_spec::specs::BlockCalls::damping_outcome, cdef_spec::specs::BlockCalls::luma_damping_outcome, cdef_spec::specs::BlockCalls::chroma_damping_outcome, cdef_spec::specs::BlockCalls::direction_outcome, cdef_spec::specs::BlockCalls::distance_outcome, cdef_spec::specs::BlockCalls::squares_outcome))]

pub mod direction; // direction.rt: the direction of a block
pub mod distance; // distance.rt: the distance of two blocks
pub mod filter; // filter.rt: the block filter
pub mod numbers; // numbers.rt: single numbers
pub mod trial; // trial.rt: the trial of a block
