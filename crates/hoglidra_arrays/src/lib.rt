// The gather of several columns as C calls it (layer 6). `hoglidra_arrays_c` exports it.
#![tactic(auto)]

pub mod export; // export.rt: the gather of several columns
