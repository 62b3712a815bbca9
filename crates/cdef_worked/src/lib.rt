#![tactic(auto)]

// Specs only: the lines marked P of RULES, Worked lines, computed from the definitions.
