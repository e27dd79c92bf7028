// The gather (layer 6): of a column by an index column, refused or gathered, for all bytes, numbers and lengths.
#![tactic(auto)]

mod check; // check.rt: the tests of a gather, in their order
pub mod take; // take.rt: the gather
