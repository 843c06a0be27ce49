// The constrained data of a message: one or two clearances, each of which may be given up with all that follows it.
#![tactic(auto)]

ghost use Rattle.std.specs.Prelude.{◌≡◌, ◌≤◌, ◌<◌, ◌^◌};
ghost use Rattle.x691.specs.Bits.{bit_of};
ghost use Rattle.atn.specs.Reading.{read};
ghost use Rattle.atn.specs.Messages.{constrained_data};
ghost use Rattle.runs.specs.Runs.{Runs};
ghost use Rattle.constrained_data.specs.Clears.{Clears};

use clearance_attempts::{excuse, try_clearance};
use clearance_count::read_count;
use cpdlc_tags::CLEARANCE;
use cursor::place::Cursor;
use records::emit;
use runs::At;

// So many clearances. Behind one that has passed the window's end the second is there all the same, with nothing in it.
fn read_clearances(s: &[u8], words: &mut [u64], n: usize, c: Cursor, count: u64) -> At
    requires { (n < 2 ^ 24) × (c.why ≡ 0) × (count ≤ 2) }
    ensures { Clears 162834 count s.now c n words.old words.new result }
{
    if count == 0 {
        return At { n: n, c: c };
    }
    let first = try_clearance(s, words, n, c, 1);
    let d = first.c;
    let k = first.n;
    if count == 1 {
        return first;
    }
    if d.why == 0 {
        return try_clearance(s, words, k, d, 2);
    }
    if d.why == 7 {
        let m = emit(words, k, CLEARANCE, 0, 2, 0, d.at);
        return At { n: m, c: d };
    }
    first
}

// The constrained data of a message. Where its head or a clearance cannot be read, that and all behind it are dropped.
pub fn read_constrained(s: &[u8], words: &mut [u64], n: usize, c: Cursor) -> At
    requires { n < 2 ^ 24 }
    ensures { Runs 162834 (λ e p. read constrained_data (0, 0) (bit_of s.now) e p) s.now c n words.old words.new result }
{
    if c.why != 0 {
        return At { n: n, c: c };
    }
    let count = read_count(s, c);
    let d = count.c;
    if d.why != 0 {
        let e = excuse(d);
        return At { n: n, c: e };
    }
    read_clearances(s, words, n, d, count.v)
}
