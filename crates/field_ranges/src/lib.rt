// The ranges of all fields.
#![tactic(auto)]

#[rattlefmt::skip]
pub mod table; // table.rt: lowest and highest of each, and the width that follows
