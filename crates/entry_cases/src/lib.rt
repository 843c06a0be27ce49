// What a line of entry_lines says.
#![tactic(auto)]

pub mod case; // case.rt: a case
pub mod fields; // fields.rt: the parts of a line
