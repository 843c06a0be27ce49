// A frame read by a lent table of nodes: sequence and choice call each other, and the depth left falls at each call.
#![tactic(auto)]

pub mod walk; // walk.rt: a node, with all that lies below it
