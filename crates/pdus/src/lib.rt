// CPDLC at the frame's own level: the message choice, over the protected message and the forward message around the inner strings.
#![tactic(auto)]

pub mod choices; // choices.rt: the message choice
