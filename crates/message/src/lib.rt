// The CPDLC message in its inner string: the header, then the data.
#![tactic(auto)]

pub mod data; // data.rt: the whole message
pub mod unlisted; // unlisted.rt: whether an element is outside the table
