// Bits gathered by an index column (layers 3 and 4): of validity, and of boolean data.
#![tactic(auto)]

pub mod bit; // bit.rt: the bits that the indices name
