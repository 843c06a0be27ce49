// A lent table of nodes, and what it is refused for before a frame is read by it.
#![tactic(auto)]

pub mod node; // node.rt: a node by its number
mod depth; // depth.rt: the depth of a table
pub mod refusal; // refusal.rt: the first refusal of a table

// The depth of the deepest table.
pub const DEEPEST: usize = 16;
