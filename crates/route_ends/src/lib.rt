// The parts of a clearance at the two ends of its route: airports, runways, procedures.
#![tactic(auto)]

ghost use Rattle.std.specs.Prelude.{◌<◌, ◌^◌};
ghost use Rattle.route_ends.specs.Ends.{departure_fields, arrival_fields};
ghost use Rattle.optional_parts.specs.Parts.{Fields};

use cpdlc_tags::{
    APPROACH_PROCEDURE, ARRIVAL_PROCEDURE, ARRIVAL_RUNWAY, DEPARTURE_AIRPORT, DEPARTURE_PROCEDURE,
    DEPARTURE_RUNWAY, DESTINATION_AIRPORT,
};
use cursor::place::Cursor;
use route_parts::{airport_part, procedure_part, runway_part};
use runs::At;

// v is the number of all nine presence bits.
pub fn read_departure(s: &[u8], words: &mut [u64], n: usize, c: Cursor, v: u64) -> At
    requires { n < 2 ^ 29 }
    ensures { Fields 259 departure_fields 5 v s.now c n words.old words.new result }
{
    let departure = airport_part(s, words, n, c, v / 256 % 2, DEPARTURE_AIRPORT);
    let destination = airport_part(
        s,
        words,
        departure.n,
        departure.c,
        v / 128 % 2,
        DESTINATION_AIRPORT,
    );
    let runway = runway_part(
        s,
        words,
        destination.n,
        destination.c,
        v / 64 % 2,
        DEPARTURE_RUNWAY,
    );
    procedure_part(
        s,
        words,
        runway.n,
        runway.c,
        v / 32 % 2,
        DEPARTURE_PROCEDURE,
    )
}

pub fn read_arrival(s: &[u8], words: &mut [u64], n: usize, c: Cursor, v: u64) -> At
    requires { n < 2 ^ 29 }
    ensures { Fields 260 arrival_fields 2 v s.now c n words.old words.new result }
{
    let runway = runway_part(s, words, n, c, v / 16 % 2, ARRIVAL_RUNWAY);
    let approach = procedure_part(s, words, runway.n, runway.c, v / 8 % 2, APPROACH_PROCEDURE);
    procedure_part(
        s,
        words,
        approach.n,
        approach.c,
        v / 4 % 2,
        ARRIVAL_PROCEDURE,
    )
}
