// A transponder code of four octal digits; a runway: direction 1 to 36, and its side.
#![tactic(auto)]

ghost use Rattle.codes_runways.specs.Readers.{Codes, Runways};

use cursor::place::{Cursor, Got};
use field_ranges::table::{CODE_DIGIT, RUNWAY, RUNWAY_SIDE};
use ranged_numbers::ranged;

#[derive(Clone, Copy)]
pub struct Code {
    pub first: u64,
    pub first_at: usize,
    pub second: u64,
    pub second_at: usize,
    pub third: u64,
    pub third_at: usize,
    pub fourth: u64,
    pub fourth_at: usize,
}

pub fn read_code(s: &[u8], c: Cursor) -> Got<Code>
    ensures { Codes s.now c result }
{
    let first = ranged(s, c, CODE_DIGIT);
    let second = ranged(s, first.c, CODE_DIGIT);
    let third = ranged(s, second.c, CODE_DIGIT);
    let fourth = ranged(s, third.c, CODE_DIGIT);
    Got {
        v: Code {
            first: first.v,
            first_at: c.at,
            second: second.v,
            second_at: first.c.at,
            third: third.v,
            third_at: second.c.at,
            fourth: fourth.v,
            fourth_at: third.c.at,
        },
        c: fourth.c,
    }
}

#[derive(Clone, Copy)]
pub struct Runway {
    pub direction: u64,
    pub direction_at: usize,
    pub side: u64,
    pub side_at: usize,
}

pub fn read_runway(s: &[u8], c: Cursor) -> Got<Runway>
    ensures { Runways s.now c result }
{
    let direction = ranged(s, c, RUNWAY);
    let side = ranged(s, direction.c, RUNWAY_SIDE);
    Got {
        v: Runway {
            direction: direction.v,
            direction_at: c.at,
            side: side.v,
            side_at: direction.c.at,
        },
        c: side.c,
    }
}
