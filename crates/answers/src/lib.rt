// The answer that C is given (layer 6): four numbers in a lent slice of 32 bytes, and what an exported entry leaves.
#![tactic(auto)]

pub mod answer; // answer.rt: the four numbers, written into the lent answer
