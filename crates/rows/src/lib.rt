// The rows of a column of variable width, copied by their offsets (layer 5): each from the part of the data that starts at its own offset into the part of
// the output that starts at the running total. Nothing here knows of tables; contracts speak of the numbers and buffers that are read.
#![tactic(auto)]

mod front; // front.rt: the bytes of one row
pub mod row; // row.rt: the rows that are valid
