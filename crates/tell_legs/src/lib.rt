// The records of a leg, put into the lent words behind the first n. Texts are read where they stand in the frame s.
#![tactic(auto)]

ghost use Rattle.std.specs.Prelude.{◌<◌, ◌^◌};
ghost use Rattle.records.specs.Told.{Told};
ghost use Rattle.named_places.specs.Names.{Held};
ghost use Rattle.legs.specs.Legs.{HeldLeg, bearing_recs, leg_recs};

use cpdlc_tags::{DEGREES, DEGREES_NUMBER, ROUTE_DESIGNATOR, ROUTE_INFORMATION};
use legs::{Bearing, Leg};
use records::emit;
use tell::tell_text;
use tell_angles::tell_pair;
use tell_named_places::tell_published;
use tell_values::tell_quantity;

fn tell_bearing(words: &mut [u64], n: usize, s: &[u8], x: Bearing) -> usize
    requires { (n < 2 ^ 28) × Held s.now x.place.named.name }
    ensures { Told 78 words.old words.new n result (bearing_recs s.now x 0) }
{
    let m = tell_published(words, n, 0, s, x.place);
    tell_quantity(words, m, 0, DEGREES, DEGREES_NUMBER, x.degrees)
}

// A leg stands outside the elements, and starts at `at`. What cannot be read has no records.
pub fn tell_leg(words: &mut [u64], n: usize, s: &[u8], at: usize, x: Leg) -> usize
    requires { (n < 2 ^ 27) × HeldLeg s.now x }
    ensures { Told 157 words.old words.new n result (leg_recs s.now at x 0) }
{
    match x {
        Leg::Place(place) => {
            let m = emit(words, n, ROUTE_INFORMATION, 0, 0, 0, at);
            tell_published(words, m, 0, s, place)
        }
        Leg::Coordinates(pair) => {
            let m = emit(words, n, ROUTE_INFORMATION, 0, 1, 0, at);
            tell_pair(words, m, 0, pair)
        }
        Leg::Between(first, second) => {
            let m = emit(words, n, ROUTE_INFORMATION, 0, 2, 0, at);
            let k = tell_bearing(words, m, s, first);
            tell_bearing(words, k, s, second)
        }
        Leg::Designator(name) => {
            let m = emit(words, n, ROUTE_INFORMATION, 0, 4, 0, at);
            tell_text(words, m, ROUTE_DESIGNATOR, 0, s, name)
        }
        Leg::Unread => n,
    }
}
