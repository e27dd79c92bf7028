// Kinds and layouts (layer 2): what a column's numbers say of its rows. Each function's contract is an equation in the definitions of `tables`.
#![tactic(auto)]

pub mod kind; // kind.rt: kinds, the fields they use, widths and layouts
