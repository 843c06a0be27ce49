// Names with an extension marker. An extended one is told as value 0 and second number 1, and what follows the bit is not read.
// The extension bit is no field's: a name starts behind it, and an extended one has the place where the reading stood.
#![tactic(auto)]

ghost use Rattle.std.specs.Prelude.{◌≡◌};
ghost use Rattle.field_ranges.specs.Rows.{speed_type, traffic_type, clearance_type, error_information, facility_function};
ghost use Rattle.field_ranges.specs.Ranges.{Listed};
ghost use Rattle.enumerations.specs.Readers.{Names, Triples};

use cursor::place::{Cursor, Got, bits, mark};
use field_ranges::table::{
    CLEARANCE_TYPE, ERROR_INFORMATION, FACILITY_FUNCTION, Range, SPEED_TYPE, TRAFFIC_TYPE,
};
use ranged_numbers::named;

#[derive(Clone, Copy)]
pub struct Name {
    pub value: u64,
    pub second: u64,
    pub at: usize,
}

// A name of the range; a number above it has no name and is badly formed.
fn read_name(s: &[u8], c: Cursor, range: Range) -> Got<Name>
    requires { Listed range × (range.lo ≡ 0) }
    ensures { Names range.row s.now c result }
{
    let extension = bits(s, c, 1);
    if extension.v == 0 {
        let g = named(s, extension.c, range);
        return Got {
            v: Name {
                value: g.v,
                second: 0,
                at: extension.c.at,
            },
            c: g.c,
        };
    }
    let end = mark(extension.c, 2);
    Got {
        v: Name {
            value: 0,
            second: 1,
            at: end.at,
        },
        c: end,
    }
}

pub fn read_speed_type(s: &[u8], c: Cursor) -> Got<Name>
    ensures { Names speed_type s.now c result }
{
    read_name(s, c, SPEED_TYPE)
}

pub fn read_traffic_type(s: &[u8], c: Cursor) -> Got<Name>
    ensures { Names traffic_type s.now c result }
{
    read_name(s, c, TRAFFIC_TYPE)
}

pub fn read_clearance_type(s: &[u8], c: Cursor) -> Got<Name>
    ensures { Names clearance_type s.now c result }
{
    read_name(s, c, CLEARANCE_TYPE)
}

pub fn read_error_information(s: &[u8], c: Cursor) -> Got<Name>
    ensures { Names error_information s.now c result }
{
    read_name(s, c, ERROR_INFORMATION)
}

pub fn read_facility_function(s: &[u8], c: Cursor) -> Got<Name>
    ensures { Names facility_function s.now c result }
{
    read_name(s, c, FACILITY_FUNCTION)
}

#[derive(Clone, Copy)]
pub struct Triple {
    pub first: Name,
    pub second: Name,
    pub third: Name,
}

pub fn read_speed_type_triple(s: &[u8], c: Cursor) -> Got<Triple>
    ensures { Triples s.now c result }
{
    let a = read_speed_type(s, c);
    let b = read_speed_type(s, a.c);
    let d = read_speed_type(s, b.c);
    Got {
        v: Triple {
            first: a.v,
            second: b.v,
            third: d.v,
        },
        c: d.c,
    }
}
