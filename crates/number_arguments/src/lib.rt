// A reader for each argument that is a number, a kind with a number, or a few numbers: its value, as one of the arguments.
#![tactic(auto)]

ghost use Rattle.argument_values.specs.Arguments.{Arguments};

use argument_values::Argument;
use codes_runways::{read_code, read_runway};
use cursor::place::{Cursor, Got};
use frequencies::read_frequency;
use quantities::{read_degrees, read_level_type, read_speed};

pub fn speed(s: &[u8], c: Cursor) -> Got<Argument>
    ensures { Arguments 2 s.now c result }
{
    read_speed(s, c).map(Argument::Speed)
}

pub fn level(s: &[u8], c: Cursor) -> Got<Argument>
    ensures { Arguments 5 s.now c result }
{
    read_level_type(s, c).map(Argument::Level)
}

pub fn degrees(s: &[u8], c: Cursor) -> Got<Argument>
    ensures { Arguments 6 s.now c result }
{
    read_degrees(s, c).map(Argument::Degrees)
}

pub fn frequency(s: &[u8], c: Cursor) -> Got<Argument>
    ensures { Arguments 7 s.now c result }
{
    read_frequency(s, c).map(Argument::Frequency)
}

pub fn code(s: &[u8], c: Cursor) -> Got<Argument>
    ensures { Arguments 8 s.now c result }
{
    read_code(s, c).map(Argument::Code)
}

pub fn runway(s: &[u8], c: Cursor) -> Got<Argument>
    ensures { Arguments 14 s.now c result }
{
    read_runway(s, c).map(Argument::Runway)
}
