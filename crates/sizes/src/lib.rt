// The tests of sizes (layer 2): refusals 1 to 3, of a column with an index column, by their descriptions and the lengths of their buffers.
#![tactic(auto)]

pub mod check; // check.rt: kinds and widths, limits, and lengths
