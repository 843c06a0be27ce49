// The records of an argument.
#![tactic(auto)]

ghost use Rattle.std.specs.Prelude.{◌<◌, ◌^◌};
ghost use Rattle.records.specs.Told.{Told};
ghost use Rattle.argument_values.specs.Arguments.{HeldArgument, argument_recs};

use argument_values::Argument;
use cpdlc_tags::{
    CLEARANCE_TYPE, DEGREES, DEGREES_NUMBER, ERROR_INFORMATION, FACILITY_FUNCTION, LEVEL,
    LEVEL_NUMBER, PROCEDURE, PROCEDURE_NAME, PROCEDURE_TRANSITION, RUNWAY, RUNWAY_SIDE, SPEED,
    SPEED_NUMBER, SPEED_TYPE, TRAFFIC_TYPE,
};
use tell_angles::tell_pair;
use tell_named_places::tell_procedure;
use tell_positions::{tell_departure, tell_position};
use tell_values::{tell_code, tell_name, tell_quantity, tell_runway, tell_triple};

// The records of an argument, put into the lent words behind the first n. Its texts are read where they stand in the frame s.
pub fn tell_argument(words: &mut [u64], n: usize, element: u64, s: &[u8], x: Argument) -> usize
    requires { (n < 2 ^ 26) × HeldArgument s.now x }
    ensures { Told 142 words.old words.new n result (argument_recs s.now x element) }
{
    match x {
        Argument::Nothing => n,
        Argument::Position(v) => tell_position(words, n, element, s, v),
        Argument::Speed(v) => tell_quantity(words, n, element, SPEED, SPEED_NUMBER, v),
        Argument::SpeedType(v) => tell_name(words, n, element, SPEED_TYPE, v),
        Argument::SpeedTypes(v) => tell_triple(words, n, element, v),
        Argument::Level(v) => tell_quantity(words, n, element, LEVEL, LEVEL_NUMBER, v),
        Argument::Degrees(v) => tell_quantity(words, n, element, DEGREES, DEGREES_NUMBER, v),
        Argument::Frequency(v) => tell_frequencies::tell_frequency(words, n, element, s, v),
        Argument::Code(v) => tell_code(words, n, element, v),
        Argument::TrafficType(v) => tell_name(words, n, element, TRAFFIC_TYPE, v),
        Argument::ClearanceType(v) => tell_name(words, n, element, CLEARANCE_TYPE, v),
        Argument::ErrorInformation(v) => tell_name(words, n, element, ERROR_INFORMATION, v),
        Argument::FacilityFunction(v) => tell_name(words, n, element, FACILITY_FUNCTION, v),
        Argument::Procedure(v) => tell_procedure(
            words,
            n,
            element,
            PROCEDURE,
            PROCEDURE_NAME,
            PROCEDURE_TRANSITION,
            s,
            v,
        ),
        Argument::Runway(v) => tell_runway(words, n, element, RUNWAY, RUNWAY_SIDE, v),
        Argument::Coordinates(v) => tell_pair(words, n, element, v),
        Argument::Departure(v) => tell_departure(words, n, element, s, v),
    }
}
