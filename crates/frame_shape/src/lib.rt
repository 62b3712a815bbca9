// What the cores of the frame calls share: a checked picture with its planes, its geometry and its blocks' filter parameters.
// The cores validate nothing and are given the figure in force.
#![tactic(auto)]

pub mod checked; // checked.rt: a picture that passed the first questions
pub mod inputs; // inputs.rt: a checked picture with its planes
pub mod geometry; // geometry.rt: blocks, units, the visible part
pub mod params; // params.rt: a block's filter parameters
