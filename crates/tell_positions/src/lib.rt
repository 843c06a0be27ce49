// The records of positions and of the departure clearance, put into the lent words behind the first n. A text is in the frame s.
#![tactic(auto)]

ghost use Rattle.std.specs.Prelude.{◌<◌, ◌^◌};
ghost use Rattle.records.specs.Told.{Told};
ghost use Rattle.named_places.specs.Names.{Held};
ghost use Rattle.positions.specs.Positions.{HeldPosition, position_recs, note_recs, departure_recs};

use cpdlc_tags::{
    AIRPORT, FIX, FLIGHT_IDENTIFICATION, FLIGHT_INFORMATION, FURTHER_INSTRUCTIONS, NAVAID, POSITION,
};
use positions::{Departure, Position};
use records::emit;
use tell::tell_text;
use tell_angles::tell_pair;
use tell_named_places::tell_named;

pub fn tell_position(words: &mut [u64], n: usize, element: u64, s: &[u8], x: Position) -> usize
    requires { (n < 2 ^ 28) × HeldPosition s.now x }
    ensures { Told 76 words.old words.new n result (position_recs s.now x element) }
{
    match x {
        Position::Fix(at, named) => {
            let m = emit(words, n, POSITION, element, 0, 0, at);
            tell_named(words, m, element, FIX, s, named)
        }
        Position::Navaid(at, named) => {
            let m = emit(words, n, POSITION, element, 1, 0, at);
            tell_named(words, m, element, NAVAID, s, named)
        }
        Position::Airport(at, text) => {
            let m = emit(words, n, POSITION, element, 2, 0, at);
            tell_text(words, m, AIRPORT, element, s, text)
        }
        Position::Coordinates(at, pair) => {
            let m = emit(words, n, POSITION, element, 3, 0, at);
            tell_pair(words, m, element, pair)
        }
        Position::Unread => n,
    }
}

// A part that is there and not read.
fn tell_note(words: &mut [u64], n: usize, element: u64, tag: u64, has: u64, at: usize) -> usize
    requires { n < 2 ^ 31 }
    ensures { Told 1 words.old words.new n result (note_recs tag has at element) }
{
    if has == 0 {
        return n;
    }
    emit(words, n, tag, element, 1, 0, at)
}

pub fn tell_departure(words: &mut [u64], n: usize, element: u64, s: &[u8], x: Departure) -> usize
    requires { (n < 2 ^ 27) × Held s.now x.flight × HeldPosition s.now x.position }
    ensures { Told 142 words.old words.new n result (departure_recs s.now x element) }
{
    let a = tell_text(words, n, FLIGHT_IDENTIFICATION, element, s, x.flight);
    let b = tell_position(words, a, element, s, x.position);
    let d = tell_note(
        words,
        b,
        element,
        FLIGHT_INFORMATION,
        x.information,
        x.notes_at,
    );
    tell_note(
        words,
        d,
        element,
        FURTHER_INSTRUCTIONS,
        x.instructions,
        x.notes_at,
    )
}
