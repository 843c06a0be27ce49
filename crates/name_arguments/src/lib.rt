// A reader for each argument that is a name, or three: its value, as one of the arguments.
#![tactic(auto)]

ghost use Rattle.argument_values.specs.Arguments.{Arguments};

use argument_values::Argument;
use cursor::place::{Cursor, Got};
use enumerations::{
    read_clearance_type, read_error_information, read_facility_function, read_speed_type,
    read_speed_type_triple, read_traffic_type,
};

pub fn speed_type(s: &[u8], c: Cursor) -> Got<Argument>
    ensures { Arguments 3 s.now c result }
{
    read_speed_type(s, c).map(Argument::SpeedType)
}

pub fn speed_types(s: &[u8], c: Cursor) -> Got<Argument>
    ensures { Arguments 4 s.now c result }
{
    read_speed_type_triple(s, c).map(Argument::SpeedTypes)
}

pub fn traffic_type(s: &[u8], c: Cursor) -> Got<Argument>
    ensures { Arguments 9 s.now c result }
{
    read_traffic_type(s, c).map(Argument::TrafficType)
}

pub fn clearance_type(s: &[u8], c: Cursor) -> Got<Argument>
    ensures { Arguments 10 s.now c result }
{
    read_clearance_type(s, c).map(Argument::ClearanceType)
}

pub fn error_information(s: &[u8], c: Cursor) -> Got<Argument>
    ensures { Arguments 11 s.now c result }
{
    read_error_information(s, c).map(Argument::ErrorInformation)
}

pub fn facility_function(s: &[u8], c: Cursor) -> Got<Argument>
    ensures { Arguments 12 s.now c result }
{
    read_facility_function(s, c).map(Argument::FacilityFunction)
}
