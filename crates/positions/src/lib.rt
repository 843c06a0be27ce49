// Positions, and the departure clearance, whose last two parts are known from their presence bits alone.
#![tactic(auto)]

ghost use Rattle.positions.specs.Positions.{Flags, Positions, Departures};

use angles::{Pair, read_latlon};
use character_strings::{Text, ia5};
use cursor::place::{Cursor, Got, bits, mark, stop};
use field_ranges::table::{AIRPORT_SIZE, FIX_SIZE, FLIGHT_SIZE, NAVAID_SIZE};
use named_places::{Named, read_named};

// each with the place of its index
#[derive(Clone, Copy)]
pub enum Position {
    Fix(usize, Named),
    Navaid(usize, Named),
    Airport(usize, Text),
    Coordinates(usize, Pair),
    Unread,
}

// information, instructions: their presence bits, as the frame has them; notes_at: where the reading stood, behind the position
#[derive(Clone, Copy)]
pub struct Departure {
    pub flight: Text,
    pub position: Position,
    pub information: u64,
    pub instructions: u64,
    pub notes_at: usize,
}

pub fn read_position(s: &[u8], c: Cursor) -> Got<Position>
    ensures { Positions s.now c result }
{
    let index = bits(s, c, 3);
    match index.v {
        0 => {
            let fix = read_named(s, index.c, FIX_SIZE);
            Got {
                v: Position::Fix(c.at, fix.v),
                c: fix.c,
            }
        }
        1 => {
            let navaid = read_named(s, index.c, NAVAID_SIZE);
            Got {
                v: Position::Navaid(c.at, navaid.v),
                c: navaid.c,
            }
        }
        2 => {
            let airport = ia5(s, index.c, AIRPORT_SIZE);
            Got {
                v: Position::Airport(c.at, airport.v),
                c: airport.c,
            }
        }
        3 => {
            let coordinates = read_latlon(s, index.c);
            Got {
                v: Position::Coordinates(c.at, coordinates.v),
                c: coordinates.c,
            }
        }
        // 4 is a place with its bearing and distance, which document 01 does not supply
        _ => Got {
            v: Position::Unread,
            c: stop(index.c, 5, 1),
        },
    }
}

// The presence bit of a part that is not read. A set one is mark 4 at once, even where nothing more can be read.
fn read_flag(s: &[u8], c: Cursor) -> Got<u64>
    ensures { Flags s.now c result }
{
    let flag = bits(s, c, 1);
    if flag.v == 0 {
        return flag;
    }
    Got {
        v: 1,
        c: mark(flag.c, 8),
    }
}

pub fn read_departure_clearance(s: &[u8], c: Cursor) -> Got<Departure>
    ensures { Departures s.now c result }
{
    let information = read_flag(s, c);
    let instructions = read_flag(s, information.c);
    let flight = ia5(s, instructions.c, FLIGHT_SIZE);
    let place = read_position(s, flight.c);
    Got {
        v: Departure {
            flight: flight.v,
            position: place.v,
            information: information.v,
            instructions: instructions.v,
            notes_at: place.c.at,
        },
        c: place.c,
    }
}
