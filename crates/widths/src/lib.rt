// Blocks at literal sizes and index widths (layer 4), which gives each pair of them a loop of its own.
#![tactic(auto)]

pub mod dispatch; // dispatch.rt: the common sizes and widths as literals
