// The integrity check: bits behind a length. Where the frame ends before it the message is cut; a bad length is passed over with mark 7.
#![tactic(auto)]

ghost use Rattle.std.specs.Prelude.{◌≤◌, ◌<◌, ◌^◌, length};
ghost use Rattle.integrity.specs.Parts.{integrity};
ghost use Rattle.runs.specs.Runs.{Runs};

use cpdlc_tags::INTEGRITY_CHECK;
use cursor::place::Cursor;
use length_determinants::{length, pass};
use per::units::Bits;
use records::emit;
use runs::At;

pub fn read_integrity(s: &[u8], words: &mut [u64], n: usize, c: Cursor) -> At
    requires { (length s.now ≤ 65536) × (n < 2 ^ 31) }
    ensures { Runs 1 (integrity s.now) s.now c n words.old words.new result }
{
    if c.why != 0 {
        return At { n: n, c: c };
    }
    let l = length(s, c);
    let first = l.c;
    let at = first.at;
    let end = pass(first, Bits(l.v));
    let place = end.at;
    let window = end.end;
    let marks = end.marks;
    if end.why % 16 == 4 {
        let cut = Cursor {
            at: place,
            end: window,
            why: 7,
            marks: marks,
        };
        return At { n: n, c: cut };
    }
    if end.why == 5 {
        let over = Cursor {
            at: place,
            end: window,
            why: 0,
            marks: marks | 64,
        };
        return At { n: n, c: over };
    }
    if l.v == 0 {
        return At { n: n, c: end };
    }
    let m = emit(words, n, INTEGRITY_CHECK, 0, at as u64, l.v as u64, c.at);
    At { n: m, c: end }
}
