// An inner string: where its bits stand in the frame.
#![tactic(auto)]

ghost use Rattle.std.specs.Prelude.{◌≤◌, length};
ghost use Rattle.inner_strings.specs.Strings.{Strings};

use cursor::place::{Cursor, stop};
use length_determinants::{length, pass};
use per::room::holds;
use per::units::Bits;

// Found: its first byte, the byte behind it, its bits in these bytes as a window, and the cursor behind it.
#[derive(Clone, Copy)]
pub enum Inner {
    Lost(Cursor),
    Found(usize, usize, Cursor, Cursor),
}

pub fn find_string(s: &[u8], c: Cursor) -> Inner
    requires { length s.now ≤ 65536 }
    ensures { Strings s.now c result }
{
    let l = length(s, c);
    let count = l.v;
    let first = l.c;
    let at = first.at;
    let behind = pass(first, Bits(count));
    let end = behind.at;
    let marks = behind.marks;
    if behind.why != 0 {
        return Inner::Lost(behind);
    }
    if holds(s, end) {
        let window = Cursor {
            at: at % 8,
            end: at % 8 + count,
            why: 0,
            marks: marks,
        };
        return Inner::Found(at / 8, (end + 7) / 8, window, behind);
    }
    // no cursor in the frame comes here
    Inner::Lost(stop(behind, 4, 0))
}
