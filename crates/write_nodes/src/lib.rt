// A list of records written by a table of nodes.
#![tactic(auto)]

pub mod node; // node.rt: a node, with all that lies below it
