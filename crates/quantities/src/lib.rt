// A kind, and a number of that kind's range: speeds, levels, degrees.
#![tactic(auto)]

ghost use Rattle.std.specs.Prelude.{◌≡◌, ◌+◌, ◌≤◌};
ghost use Rattle.quantities.specs.Readers.{Quantities, index_width};
ghost use Rattle.quantities.specs.Readers.{Speeds, Levels, Degrees};

use cursor::place::{Cursor, Got, bits, stop};
use field_ranges::table::{DEGREES_0, LEVEL_0, SPEED_0, range_at};
use ranged_numbers::ranged;

#[derive(Clone, Copy)]
pub struct Quantity {
    pub kind: u64,
    pub kind_at: usize,
    pub number: u64,
    pub number_at: usize,
}

// The ranges of the kinds stand in a row of the table, from `first` on. An index behind the last kind is not listed.
fn read_quantity(s: &[u8], c: Cursor, width: usize, first: usize, kinds: u64) -> Got<Quantity>
    requires { (width ≡ index_width first kinds) × (width ≤ 8) × (first + kinds ≤ 58) }
    ensures { Quantities first kinds s.now c result }
{
    let kind = bits(s, c, width);
    let k = kind.v;
    if k < kinds {
        let range = range_at(first + k as usize);
        let number = ranged(s, kind.c, range);
        return Got {
            v: Quantity {
                kind: k,
                kind_at: c.at,
                number: number.v,
                number_at: kind.c.at,
            },
            c: number.c,
        };
    }
    Got {
        v: Quantity {
            kind: k,
            kind_at: c.at,
            number: 0,
            number_at: 0,
        },
        c: stop(kind.c, 5, 1),
    }
}

pub fn read_speed(s: &[u8], c: Cursor) -> Got<Quantity>
    ensures { Speeds s.now c result }
{
    read_quantity(s, c, 3, SPEED_0.row, 7)
}

pub fn read_level_type(s: &[u8], c: Cursor) -> Got<Quantity>
    ensures { Levels s.now c result }
{
    read_quantity(s, c, 2, LEVEL_0.row, 4)
}

pub fn read_degrees(s: &[u8], c: Cursor) -> Got<Quantity>
    ensures { Degrees s.now c result }
{
    read_quantity(s, c, 1, DEGREES_0.row, 2)
}
