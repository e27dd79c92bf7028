// The stages of a gather that go by the kind (layer 6): how many bytes the outputs need, whether they are lent, and the writing of the values.
// Each can be called by itself; the entries put them in their order.
#![tactic(auto)]

pub mod measure; // measure.rt: the size of the data output, with refusal 6
pub mod space; // space.rt: refusal 7, the lengths of the outputs
pub mod values; // values.rt: the offsets and the data of the taken rows
