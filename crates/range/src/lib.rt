// The range test (layer 3): refusal 5, the first valid index that names no row, and how many indices were looked at to find it.
#![tactic(auto)]

mod outside; // outside.rt: the block of the first number that is that of no row
pub mod bounds; // bounds.rt: the scan from there on
