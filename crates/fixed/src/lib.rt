// Fixed width (layer 4): columns whose rows are blocks of as many bytes each, or bits. Rust's functions for primitive values, fixed-size binary
// and fixed-size lists are thin functions over one routine; under a null row each writes zeros.
#![tactic(auto)]

pub mod take; // take.rt: the taken values of each kind
