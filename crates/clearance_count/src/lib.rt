// The number of the route clearances that a message has behind its elements.
#![tactic(auto)]

ghost use Rattle.clearance_count.specs.Counts.{Counts};

use character_strings::size;
use cursor::place::{Cursor, Got, bits, mark};
use field_ranges::table::CLEARANCES;

// The number of the clearances, none behind a set extension bit (mark 2) and none where they are absent.
pub fn read_count(s: &[u8], c: Cursor) -> Got<u64>
    ensures { Counts s.now c result }
{
    let extension = bits(s, c, 1);
    if extension.v != 0 {
        let d = mark(extension.c, 2);
        return Got { v: 0, c: d };
    }
    let has = bits(s, extension.c, 1);
    if has.v == 0 {
        let d = has.c;
        return Got { v: 0, c: d };
    }
    let count = size(s, has.c, CLEARANCES);
    let d = count.c;
    if count.v == 1 {
        return Got { v: 1, c: d };
    }
    Got { v: 2, c: d }
}
