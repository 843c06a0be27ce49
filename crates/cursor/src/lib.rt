// The cursor: where a reading stands in its window, how it goes on, and why it stopped.
#![tactic(auto)]

pub mod place; // place.rt: the cursor, and the bits behind it
