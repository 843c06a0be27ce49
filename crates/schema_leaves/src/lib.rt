// The parts of a table that hold no others: what is read is told as it is read.
#![tactic(auto)]

use cursor::place::Cursor;

pub mod numbers; // numbers.rt: ranged numbers, and names by their places
pub mod strings; // strings.rt: texts, and fixed bit counts

// Where the reading stands, and the number of records, which stays at 2^64 - 1 once it is there. Of a reading that stopped, as the cursor's own `why` says, the bits that it lacked stand in their place.
#[derive(Clone, Copy)]
pub struct Step {
    pub c: Cursor,
    pub n: usize,
}
