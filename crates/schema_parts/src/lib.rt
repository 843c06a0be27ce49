// The steps of a reading by a table that name no further node.
#![tactic(auto)]

pub mod leaf; // leaf.rt: nodes that name none
pub mod members; // members.rt: the presence bits of a sequence
