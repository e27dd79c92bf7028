// The row reader (layer 6): a row of variable bytes as a part of the caller's data, and whether there is one.
#![tactic(auto)]

pub mod row; // row.rt: the two entries
