// What both reads and tells: a cursor and the number of records so far.
//
// Behind 0 and document 01's 4, with 16 times the bits lacked, 5 and 6 the cursor's `why` has three numbers more for a reading inside a window: 7, a tolerated read has passed the window's end and the reading carried on; 8 and 9, a part was given up with all that follows it in the window, which is accepted (9: the bits left count for mark 6).
#![tactic(auto)]

use cursor::place::Cursor;

pub mod windows; // windows.rt: the end of an inner string

#[derive(Clone, Copy)]
pub struct At {
    pub n: usize,
    pub c: Cursor,
}
