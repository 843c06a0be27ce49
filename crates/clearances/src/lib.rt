// A route clearance: nine presence bits, those past the window's end absent, and the parts that they say are there.
//
// A part is read as a value, and its records are told while the reading goes on. So what fails may have told the parts before it: the caller drops those.
#![tactic(auto)]

ghost use Rattle.std.specs.Prelude.{◌≡◌, ◌+◌, ◌<◌, ◌^◌};
ghost use Rattle.x691.specs.Bits.{bit_of};
ghost use Rattle.atn.specs.Reading.{read};
ghost use Rattle.atn.specs.Format.{many};
ghost use Rattle.atn.specs.Messages.{leg, route_clearance};
ghost use Rattle.cursor.specs.Place.{put, Inside};
ghost use Rattle.runs.specs.Runs.{Runs};
ghost use Rattle.clearances.specs.Clearance.{Rest, route_fields, clearance_fields};
ghost use Rattle.optional_parts.specs.Parts.{Optional, Fields};

use cpdlc_tags::{ADDITIONAL, CLEARANCE};
use cursor::place::{Cursor, bits, mark};
use leg_lists::read_legs;
use records::emit;
use route_ends::{read_arrival, read_departure};
use runs::At;

// The bits that are left, if they are fewer than nine.
fn rest(s: &[u8], c: Cursor) -> u64
    ensures { Rest s.now c result }
{
    let at = c.at;
    let end = c.end;
    if at <= end {
        let n = end - at;
        if n < 9 {
            let g = bits(s, c, n);
            return g.v;
        }
    }
    0
}

fn at_end(c: Cursor, why: u64) -> Cursor
    ensures { result ≡ put c c.end why c.marks }
{
    let end = c.end;
    let marks = c.marks;
    Cursor {
        at: end,
        end: end,
        why: why,
        marks: marks,
    }
}

// The window ends before the ninth presence bit. Without a set one the clearance is kept, with nothing in it; else the part that is there runs out; the presence bit that passed the end was the first to lack a bit.
fn read_clipped(s: &[u8], words: &mut [u64], n: usize, c: Cursor, place: u64) -> At
    requires { (n < 2 ^ 31) × (c.why ≡ 0) × (Inside s.now c → c.end < c.at + 9) }
    ensures { Runs 1 (λ e p. read route_clearance (0, place) (bit_of s.now) e p) s.now c n words.old words.new result }
{
    let flags = rest(s, c);
    if flags == 0 {
        let d = at_end(c, 7);
        let m = emit(words, n, CLEARANCE, 0, place, 0, c.at);
        return At { n: m, c: d };
    }
    let d = at_end(c, 20);
    At { n: n, c: d }
}

fn legs_part(s: &[u8], words: &mut [u64], n: usize, c: Cursor, has: u64) -> At
    requires { n < 2 ^ 25 }
    ensures { Optional 80896 has (many 1 128 leg) s.now c n words.old words.new result }
{
    if has == 0 {
        return At { n: n, c: c };
    }
    read_legs(s, words, n, c)
}

// The legs, and the last part, of which only the presence bit is known: mark 4.
fn read_route(s: &[u8], words: &mut [u64], n: usize, c: Cursor, v: u64) -> At
    requires { n < 2 ^ 25 }
    ensures { Fields 80897 route_fields 0 v s.now c n words.old words.new result }
{
    let legs = legs_part(s, words, n, c, v / 2 % 2);
    let d = legs.c;
    let k = legs.n;
    if v % 2 == 0 {
        return legs;
    }
    if d.why != 0 {
        return legs;
    }
    let e = mark(d, 8);
    let m = emit(words, k, ADDITIONAL, 0, 1, 0, d.at);
    At { n: m, c: e }
}

fn read_fields(s: &[u8], words: &mut [u64], n: usize, c: Cursor, v: u64) -> At
    requires { n < 2 ^ 24 + 2 ^ 20 }
    ensures { Fields 81416 clearance_fields 0 v s.now c n words.old words.new result }
{
    let departure = read_departure(s, words, n, c, v);
    let arrival = read_arrival(s, words, departure.n, departure.c, v);
    read_route(s, words, arrival.n, arrival.c, v)
}

// The clearance with this place in its message. Where it fails, the parts before are told: the caller drops them.
pub fn read_route_clearance(s: &[u8], words: &mut [u64], n: usize, c: Cursor, place: u64) -> At
    requires { n < 2 ^ 24 + 2 ^ 19 }
    ensures { Runs 81417 (λ e p. read route_clearance (0, place) (bit_of s.now) e p) s.now c n words.old words.new result }
{
    let flags = bits(s, c, 9);
    let d = flags.c;
    if d.why == 0 {
        let m = emit(words, n, CLEARANCE, 0, place, 0, c.at);
        // the unread part is known to be there from its bit on
        let e = mark(d, flags.v % 2 * 8);
        return read_fields(s, words, m, e, flags.v);
    }
    if c.why != 0 {
        return At { n: n, c: c };
    }
    read_clipped(s, words, n, c, place)
}
