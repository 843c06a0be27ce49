// A leg of a route, by its index: 0 a published place, 1 coordinates, 2 two places with a bearing each, 3 a place with a bearing and a distance, which document 01 does not supply, 4 the designator of a route.
#![tactic(auto)]

ghost use Rattle.legs.specs.Legs.{Bearings, Rangings, Legs};

use angles::{Pair, read_latlon};
use character_strings::{Text, ia5};
use cursor::place::{Cursor, Got, bits, stop};
use field_ranges::table::ROUTE_SIZE;
use named_places::{Published, read_published};
use quantities::{Quantity, read_degrees};

#[derive(Clone, Copy)]
pub struct Bearing {
    pub place: Published,
    pub degrees: Quantity,
}

#[derive(Clone, Copy)]
pub enum Leg {
    Place(Published),
    Coordinates(Pair),
    Between(Bearing, Bearing),
    Designator(Text),
    Unread,
}

fn read_bearing(s: &[u8], c: Cursor) -> Got<Bearing>
    ensures { Bearings s.now c result }
{
    let place = read_published(s, c);
    let degrees = read_degrees(s, place.c);
    Got {
        v: Bearing {
            place: place.v,
            degrees: degrees.v,
        },
        c: degrees.c,
    }
}

// The distance is reached once its place and bearing are read.
fn read_ranging(s: &[u8], c: Cursor) -> Cursor
    ensures { Rangings s.now c result }
{
    let place = read_published(s, c);
    let degrees = read_degrees(s, place.c);
    stop(degrees.c, 6, 0)
}

pub fn read_leg(s: &[u8], c: Cursor) -> Got<Leg>
    ensures { Legs s.now c result }
{
    let index = bits(s, c, 3);
    match index.v {
        0 => read_published(s, index.c).map(Leg::Place),
        1 => read_latlon(s, index.c).map(Leg::Coordinates),
        2 => {
            let a = read_bearing(s, index.c);
            let b = read_bearing(s, a.c);
            Got {
                v: Leg::Between(a.v, b.v),
                c: b.c,
            }
        }
        3 => Got {
            v: Leg::Unread,
            c: read_ranging(s, index.c),
        },
        4 => ia5(s, index.c, ROUTE_SIZE).map(Leg::Designator),
        _ => Got {
            v: Leg::Unread,
            c: stop(index.c, 5, 1),
        },
    }
}
