// Validity (layer 3): which of the taken rows are valid, and how many are null.
#![tactic(auto)]

pub mod null; // null.rt: the validity of the taken rows, and how many are null
