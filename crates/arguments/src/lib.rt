// The arguments of elements: which one an element has is the lent table's byte, 0 to 16. An argument is read as a value, and told from it.
#![tactic(auto)]

ghost use Rattle.argument_values.specs.Arguments.{Arguments};

use argument_values::Argument;
use cursor::place::{Cursor, Got, stop};

// The argument of the table's byte. 0 has no bits; any byte above 16 has no reader.
pub fn read_argument(s: &[u8], c: Cursor, byte: u8) -> Got<Argument>
    ensures { Arguments byte s.now c result }
{
    match byte {
        0 => Got {
            v: Argument::Nothing,
            c,
        },
        1 => place_arguments::position(s, c),
        2 => number_arguments::speed(s, c),
        3 => name_arguments::speed_type(s, c),
        4 => name_arguments::speed_types(s, c),
        5 => number_arguments::level(s, c),
        6 => number_arguments::degrees(s, c),
        7 => number_arguments::frequency(s, c),
        8 => number_arguments::code(s, c),
        9 => name_arguments::traffic_type(s, c),
        10 => name_arguments::clearance_type(s, c),
        11 => name_arguments::error_information(s, c),
        12 => name_arguments::facility_function(s, c),
        13 => place_arguments::procedure(s, c),
        14 => number_arguments::runway(s, c),
        15 => place_arguments::coordinates(s, c),
        16 => place_arguments::departure(s, c),
        _ => Got {
            v: Argument::Nothing,
            c: stop(c, 5, 0),
        },
    }
}
