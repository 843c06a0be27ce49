// The list of legs. As long as a leg has all its bits ahead and room for all its records, it is read and told at once. From the first leg on that is not, each is read as a value, and its records are told while the reading goes on.
#![tactic(auto)]

ghost use Rattle.std.specs.Prelude.{◌≡◌, true, ◌*◌, ◌≤◌, ◌<◌, ◌^◌};
ghost use Rattle.x691.specs.Bits.{bit_of};
ghost use Rattle.atn.specs.Format.{many};
ghost use Rattle.atn.specs.Reading.{read};
ghost use Rattle.atn.specs.Messages.{leg};
ghost use Rattle.cursor.specs.Place.{put};
ghost use Rattle.records.specs.Space.{space};
ghost use Rattle.optional_parts.specs.Parts.{Part};
ghost use Rattle.leg_lists.specs.Legs.{legs_of};

use ample_legs::read_route_information;
use character_strings::size;
use cpdlc_tags::LEG;
use cursor::place::Cursor;
use field_ranges::table::LEGS;
use legs::read_leg;
use records::space::words_for;
use records::{emit, store};
use runs::At;
use tell_legs::tell_leg;

// The octets that the reading of a leg with one place may touch, from its first bit on.
const AMPLE_OCTETS: usize = 16;

// The records of a leg are at most as many.
const AMPLE_RECORDS: usize = 32;

// How many legs were read, how many records there are then, and where and with which marks the reading goes on.
#[derive(Clone, Copy)]
struct Begun {
    legs: u64,
    n: usize,
    at: usize,
    marks: u64,
}

// A leg with its place in the clearance, read as a value and told if the reading goes on.
fn put_value(s: &[u8], words: &mut [u64], n: usize, c: Cursor, place: u64) -> At
    requires { n < 2 ^ 26 }
    ensures { Part 158 (λ e p. read leg (0, place) (bit_of s.now) e p) s.now c n words.old words.new result }
{
    let at = c.at;
    let a = read_leg(s, c);
    let x = a.v;
    let d = a.c;
    if d.why != 0 {
        return At { n: n, c: d };
    }
    let m = emit(words, n, LEG, 0, place, 0, at);
    let k = tell_leg(words, m, s, at, x);
    At { n: k, c: d }
}

// Whether the reading goes on, and there would be octets and room for a leg if nothing stood before it.
fn is_ample(octets: usize, room: usize, n: usize, why: u64) -> bool
    ensures { result ≡ true → (why ≡ 0) × (16 ≤ octets) × (octets < 2 ^ 50) × (n < 2 ^ 23) × (space 32 ≤ room) }
{
    if why != 0 {
        return false;
    }
    if octets < AMPLE_OCTETS {
        return false;
    }
    if 0x3_ffff_ffff_ffff < octets {
        return false;
    }
    if 0x7f_ffff < n {
        return false;
    }
    words_for(AMPLE_RECORDS) <= room
}

// The first legs, up to one that is not read at once. The octets of a leg may stand behind the window's end: whether it ended before that is asked behind it.
fn begin_legs(s: &[u8], words: &mut [u64], n: usize, c: Cursor, legs: u64) -> Begun
    requires { legs ≤ 512 }
    ensures { (result.legs ≤ legs) × Part (158 * result.legs) (legs_of s.now result.legs) s.now c n words.old words.new (record { n = result.n; c = put c result.at c.why result.marks }) }
{
    let mut p = c.at;
    let end = c.end;
    let why = c.why;
    let mut marks = c.marks;
    let octets = s.len();
    let room = words.len();
    let mut m = n;
    if !is_ample(octets, room, n, why) {
        return Begun {
            legs: 0,
            n: m,
            at: p,
            marks: marks,
        };
    }
    let last_bit = (octets - AMPLE_OCTETS) * 8;
    let last_word = room - words_for(AMPLE_RECORDS);
    for i in 0..legs {
        if last_bit < p || last_word < words_for(m) {
            return Begun {
                legs: i,
                n: m,
                at: p,
                marks: marks,
            };
        }
        let k = store(words, m, LEG, 0, i + 1, 0, p);
        let r = read_route_information(s, words, k, p);
        let q = r.at;
        if q == 0 || end < q {
            return Begun {
                legs: i,
                n: m,
                at: p,
                marks: marks,
            };
        }
        m = r.n;
        p = q;
        marks |= r.marks;
    }
    Begun {
        legs,
        n: m,
        at: p,
        marks,
    }
}

// The legs of a clearance, one to 128 by the schema.
pub fn read_legs(s: &[u8], words: &mut [u64], n: usize, c: Cursor) -> At
    requires { n < 2 ^ 25 }
    ensures { Part 80896 (λ e p. read (many 1 128 leg) (0, 0) (bit_of s.now) e p) s.now c n words.old words.new result }
{
    let count = size(s, c, LEGS);
    let legs = count.v;
    let first = count.c;
    let b = begin_legs(s, words, n, first, legs);
    let mut m = b.n;
    let mut d = Cursor {
        at: b.at,
        end: first.end,
        why: first.why,
        marks: b.marks,
    };
    for i in b.legs..legs {
        let t = put_value(s, words, m, d, i + 1);
        m = t.n;
        d = t.c;
    }
    At { n: m, c: d }
}
