// One column of those that are gathered (layer 6): its tests through overflow, and its writing. A gather of one column and one of several go through it.
#![tactic(auto)]

pub mod column; // column.rt: a column whose buffers are lent by themselves
pub mod in_body; // in_body.rt: a column that a record describes, whose buffers lie in a body
