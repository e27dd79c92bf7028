// The tests of well-formed tables (layer 2): refusals 1 to 4, of a column with an index column and by itself.
#![tactic(auto)]

pub mod columns; // columns.rt: sizes, then offsets
