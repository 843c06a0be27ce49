// A route clearance that is given up where it cannot be read.
#![tactic(auto)]

ghost use Rattle.std.specs.Prelude.{◌+◌, ◌<◌, ◌^◌};
ghost use Rattle.x691.specs.Bits.{bit_of};
ghost use Rattle.runs.specs.Runs.{Runs};
ghost use Rattle.clearance_attempts.specs.Excused.{Excused};
ghost use Rattle.clearances.specs.Attempts.{attempt};

use clearances::read_route_clearance;
use cursor::place::Cursor;
use runs::At;

// Ran out and badly formed are given up, with all that follows in the window, which is accepted: the bits left count, mark 7. An unsupplied item is said all the same.
pub fn excuse(c: Cursor) -> Cursor
    ensures { Excused c result }
{
    let at = c.at;
    let end = c.end;
    let why = c.why % 16;
    let marks = c.marks | 64;
    match why {
        4 | 5 => Cursor {
            at: at,
            end: end,
            why: 9,
            marks: marks,
        },
        _ => c,
    }
}

// A clearance that may be dropped: where it fails, the records that it told do not count.
pub fn try_clearance(s: &[u8], words: &mut [u64], n: usize, c: Cursor, place: u64) -> At
    requires { n < 2 ^ 24 + 2 ^ 18 }
    ensures { Runs 81417 (λ e p. attempt (bit_of s.now) place e p) s.now c n words.old words.new result }
{
    if c.why != 0 {
        return At { n: n, c: c };
    }
    let x = read_route_clearance(s, words, n, c, place);
    let d = x.c;
    let why = d.why % 16;
    let e = excuse(d);
    match why {
        4..=5 => At { n: n, c: e },
        _ => x,
    }
}
