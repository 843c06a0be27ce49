// A reader for each argument that is a place or has one: its value, as one of the arguments.
#![tactic(auto)]

ghost use Rattle.argument_values.specs.Arguments.{Arguments};

use angles::read_latlon;
use argument_values::Argument;
use cursor::place::{Cursor, Got};
use named_places::read_procedure;
use positions::{read_departure_clearance, read_position};

pub fn position(s: &[u8], c: Cursor) -> Got<Argument>
    ensures { Arguments 1 s.now c result }
{
    read_position(s, c).map(Argument::Position)
}

pub fn procedure(s: &[u8], c: Cursor) -> Got<Argument>
    ensures { Arguments 13 s.now c result }
{
    read_procedure(s, c).map(Argument::Procedure)
}

pub fn coordinates(s: &[u8], c: Cursor) -> Got<Argument>
    ensures { Arguments 15 s.now c result }
{
    read_latlon(s, c).map(Argument::Coordinates)
}

pub fn departure(s: &[u8], c: Cursor) -> Got<Argument>
    ensures { Arguments 16 s.now c result }
{
    read_departure_clearance(s, c).map(Argument::Departure)
}
