// The gather of several columns by one index column (layer 6): refused or gathered as a whole, for all bytes, numbers and lengths.
#![tactic(auto)]

pub mod batch; // batch.rt: the tests of the batch before any column
mod check; // check.rt: the tests of a batch, in their order
mod write; // write.rt: the columns written one after the other
pub mod take; // take.rt: the gather
