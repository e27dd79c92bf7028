// Blocks (layer 4): the taken rows of a column whose rows are blocks of as many bytes each, one after the other, zeros where the output is null. One
// routine for every size and index width; `widths` calls it at the common ones as literals.
#![tactic(auto)]

mod block; // block.rt: one block, copied from the data or from zeros
pub mod named; // named.rt: the named blocks, where each number names one
pub mod valid; // valid.rt: the named blocks, where a validity says which numbers do
pub mod zeros; // zeros.rt: the zeros that null rows are copied from
