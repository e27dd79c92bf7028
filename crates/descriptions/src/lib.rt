// Descriptions (layer 2): columns as records of words describe them, and their buffers as parts of one lent body.
#![tactic(auto)]

pub mod record; // record.rt: a description read from its record
pub mod body; // body.rt: whether an extent ends past the body, and the part of the body that it is
