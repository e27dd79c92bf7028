// How many entries the output rows of a column of variable width have, and their running totals (layer 5). Contracts speak of the numbers and buffers that
// are read. No loop of a gather that is not refused has a branch on a row's validity: it cannot be guessed.
#![tactic(auto)]

pub mod row; // row.rt: what selects the output rows, and one of them
pub mod total; // total.rt: the sum of all, and the first row past a limit
pub mod turn; // turn.rt: the rows of a turn, and the offsets of the output
