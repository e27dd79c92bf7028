// Copies of bytes (layer 1), for slices of any length: the length class is tested first, and each class is copied in pieces of a known length, which may
// overlap. The loop over the bytes of a piece (`bytes_at` of bits) has a constant for its length, so that the compiler makes it one load.
#![tactic(auto)]

mod piece; // piece.rt: pieces of a known length
pub mod slice; // slice.rt: the length classes, and whole slices
