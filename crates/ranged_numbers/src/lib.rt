// Numbers of a range, whose highest is not tested, and names, which are.
#![tactic(auto)]

ghost use Rattle.std.specs.Prelude.{◌≡◌};
ghost use Rattle.field_ranges.specs.Ranges.{Listed};
ghost use Rattle.ranged_numbers.specs.Numbers.{FromLowest, Ranged, Named};

use cursor::place::{Cursor, Got, bits, mark, stop};
use field_ranges::table::Range;

// A number of the range, by how much it is above its lowest, where its bits end at c. Above the range it is told all the same, with mark 1.
pub fn from_lowest(c: Cursor, above: u64, range: Range) -> Got<u64>
    ensures { FromLowest range c above result }
{
    let v = std::num::wrapping_add_u64(range.lo, above);
    // there is no mark where the reading has stopped; asked first, the reader of a known range comes out smaller
    if c.why != 0 {
        return Got { v: v, c: c };
    }
    if above <= range.extent() {
        return Got { v: v, c: c };
    }
    let m = mark(c, 1);
    Got { v: v, c: m }
}

// The next number of the range.
pub fn ranged(s: &[u8], c: Cursor, range: Range) -> Got<u64>
    requires { Listed range }
    ensures { Ranged range.row s.now c result }
{
    let g = bits(s, c, range.width());
    from_lowest(g.c, g.v, range)
}

// A name of the range, which begins at 0. Above it there is no name: badly formed, with mark 1.
pub fn named(s: &[u8], c: Cursor, range: Range) -> Got<u64>
    requires { Listed range × (range.lo ≡ 0) }
    ensures { Named range.row s.now c result }
{
    let g = bits(s, c, range.width());
    let v = g.v;
    let d = g.c;
    if v <= range.extent() {
        return Got { v: v, c: d };
    }
    let m = stop(d, 5, 1);
    Got { v: v, c: m }
}
