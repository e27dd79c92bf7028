// The test of offsets (layer 2): refusal 4, of a column that passed refusals 1 to 3.
#![tactic(auto)]

pub mod check; // check.rt: the offsets of a column of variable width
