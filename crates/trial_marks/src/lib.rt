#![tactic(auto)]

// Specs only: what the kernel of the trial gives from strips is the trial of the window.
