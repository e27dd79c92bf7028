// The gather of a column as C calls it (layer 6): numbers and byte slices, and an answer of 32 bytes. `hoglidra_c` exports it.
#![tactic(auto)]

pub mod export; // export.rt: the gather of a column
