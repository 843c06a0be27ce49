// What the messages of ACSE tell: records by value, and the reasons among them.
#![tactic(auto)]

pub mod tags; // tags.rt: the tags of its records
pub mod few; // few.rt: bits of one octet or two
pub mod notes; // notes.rt: records by value
pub mod reasons; // reasons.rt: reasons behind an extension bit
