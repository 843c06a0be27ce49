// The value of an element's argument: one of sixteen, or nothing.
#![tactic(auto)]

use angles::Pair;
use codes_runways::{Code, Runway};
use cursor::place::Cursor;
use enumerations::{Name, Triple};
use frequencies::Frequency;
use named_places::Procedure;
use positions::{Departure, Position};
use quantities::Quantity;

#[derive(Clone, Copy)]
pub enum Argument {
    Nothing,
    Position(Position),
    Speed(Quantity),
    SpeedType(Name),
    SpeedTypes(Triple),
    Level(Quantity),
    Degrees(Quantity),
    Frequency(Frequency),
    Code(Code),
    TrafficType(Name),
    ClearanceType(Name),
    ErrorInformation(Name),
    FacilityFunction(Name),
    Procedure(Procedure),
    Runway(Runway),
    Coordinates(Pair),
    Departure(Departure),
}
