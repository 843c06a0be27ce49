// What is written before the part below a node, and which part that is.
#![tactic(auto)]

pub mod lead; // lead.rt: a record, a bit or an index before one part
pub mod meet; // meet.rt: the presence bit before a member
