// Nodes with no other below them, and the index of an alternative.
#![tactic(auto)]

pub mod index; // index.rt: the index of an alternative
pub mod letters; // letters.rt: a text, by its characters
pub mod leaf; // leaf.rt: a node with no other below it
