// A leg of a route whose bits are all ahead: read and told at once. What it cannot read is given up: two places without the octets for both, an alternative that is not listed or not supplied, an angle of an unlisted form, a designator above its range.
#![tactic(auto)]

ghost use Rattle.std.specs.Prelude.{◌+◌, ◌*◌, ◌^◌, ◌≤◌, ◌<◌, length};
ghost use Rattle.records.specs.Space.{space};
ghost use Rattle.ample_bits.specs.Ahead.{Ahead};
ghost use Rattle.ample_readings.specs.Ample.{Ample};
ghost use Rattle.ample_legs.specs.Route.{places_of, route_information};

use ample_bits::{ahead, behind, first};
use ample_places::{BEARING, read_degrees, read_designator, read_place};
use ample_readings::{Step, given_up};
use cpdlc_tags::ROUTE_INFORMATION;
use records::store;

// The bits of an index: there are five alternatives.
const INDEX: usize = 3;

// The octets that the reading of two places with a bearing each may touch, from that of its first bit on.
const BETWEEN_OCTETS: usize = 37;

// Places, published or coordinates alone, with as many bearings: one place without, one with its bearing, two with a bearing each. The word of a bearing serves the next place too.
fn read_places(
    s: &[u8],
    words: &mut [u64],
    n: usize,
    v: u64,
    at: usize,
    published: bool,
    bearings: usize,
) -> Step
    requires { (n < 2 ^ 25) × (space (n + 30) ≤ length words.old) × (at < 2 ^ 55) × (at + 125 ≤ length s.now * 8) × (at + 47 + 121 * bearings ≤ length s.now * 8) × (bearings ≤ 2) × (Ahead s.now at 47 v) }
    ensures { Ample 30 242 (places_of published bearings) s.now at n words.old words.new result }
{
    let mut m = n;
    let mut p = at;
    let mut marks: u64 = 0;
    let mut left = bearings;
    let mut bits = v;
    loop {
        let x = read_place(s, words, m, bits, p, published);
        let q = x.at;
        let k = x.n;
        let o = x.marks;
        if q == 0 {
            return x;
        }
        if left == 0 {
            return Step {
                at: q,
                n: k,
                marks: marks | o,
            };
        }
        let b = ahead(s, q);
        let y = read_degrees(words, k, b, q);
        m = y.n;
        p = y.at;
        marks = marks | (o | y.marks);
        left -= 1;
        if left == 0 {
            return Step {
                at: p,
                n: m,
                marks: marks,
            };
        }
        bits = behind(b, BEARING);
    }
}

// What a leg says behind its place in the clearance, by its index.
pub fn read_route_information(s: &[u8], words: &mut [u64], n: usize, at: usize) -> Step
    requires { (n < 2 ^ 24) × (space (n + 31) ≤ length words.old) × (at < 2 ^ 54) × (at + 128 ≤ length s.now * 8) }
    ensures { Ample 31 245 route_information s.now at n words.old words.new result }
{
    let v = ahead(s, at);
    let index = first(v, INDEX);
    let b = behind(v, INDEX);
    let m = store(words, n, ROUTE_INFORMATION, 0, index, 0, at);
    let p = at + INDEX;
    if index == 4 {
        return read_designator(words, m, b, p);
    }
    if 2 < index {
        return given_up();
    }
    let mut bearings: usize = 0;
    if index == 2 {
        if s.len() < p / 8 + BETWEEN_OCTETS {
            return given_up();
        }
        bearings = 2;
    }
    read_places(s, words, m, b, p, index != 1, bearings)
}
