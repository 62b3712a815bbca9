// Numbers out of text: digits, blanks and comments.
#![tactic(auto)]

pub mod numbers; // numbers.rt: decimal numbers
pub mod text; // text.rt: blanks and comments
