// The gathers of the kinds with offsets (layer 5): variable bytes and lists, whose rows are as many entries as their offsets say. The size of the data
// output with refusal 6, and the rows, copied. Here a column's tests give what the loops of `lengths` and `rows` ask for.
#![tactic(auto)]

mod width; // width.rt: a loop for each pair of widths
pub mod total; // total.rt: how many bytes the rows need, and refusal 6
pub mod take; // take.rt: the offsets of the rows, and the rows
