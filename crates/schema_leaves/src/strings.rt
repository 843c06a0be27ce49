// Texts, and fixed bit counts.
ghost use Rattle.std.specs.Prelude.{◌≡◌, ◌+◌, ◌*◌, ◌^◌, ◌<◌, ◌≤◌, length, nat_le};
ghost use Rattle.x691.specs.Bits.{bit_of};
ghost use Rattle.atn.specs.Format.{text, first, span};
ghost use Rattle.atn.specs.Reading.{read, octets, units, pack};
ghost use Rattle.schema_leaves.specs.Came.{Open, Came, Placed};

use super::Step;
use capped_records::emit;
use character_strings::Text;
use cursor::place::{Cursor, bits, mark, stop};
use per::width::bits_for;
use tell::tell_text;

// A text of lo to hi characters of seven bits. Without room for all the reading ran out behind the last whole one; above the most it has mark 1.
pub fn take_text(s: &[u8], words: &mut [u64], at: Step, tag: u64, lo: u64, hi: u64) -> Step
    requires { Open s.now at × (lo ≤ hi) }
    ensures { Came (read (text tag 128 (first 0) lo hi) (0, 0) (bit_of s.now) at.c.end at.c.at) at words.old result words.new }
{
    let n = at.n;
    let start = at.c.at;
    let g = bits(s, at.c, bits_for(hi - lo));
    let c = g.c;
    if c.why != 0 {
        return Step {
            c: c,
            n: (c.why / 16) as usize,
        };
    }
    let from = c.at;
    let end = c.end;
    let left = end - from;
    let room = left / 7;
    if !holds(room as u64, lo, g.v) {
        let d = Cursor {
            at: from + 7 * room,
            end: end,
            why: 4,
            marks: c.marks,
        };
        return Step {
            c: d,
            n: 7 - left % 7,
        };
    }
    let size = lo + g.v;
    let len = size as usize;
    let m = tell_letters(words, n, tag, start, s, from, len);
    let d = Cursor {
        at: from + 7 * len,
        end: end,
        why: 0,
        marks: c.marks,
    };
    if hi < size {
        let e = mark(d, 1);
        return Step { c: e, n: m };
    }
    Step { c: d, n: m }
}

// Whether there is room for the fewest and so many more, whose sum may be above every word.
fn holds(room: u64, fewest: u64, more: u64) -> bool
    ensures { result ≡ nat_le (fewest + more) room }
{
    if room < fewest {
        return false;
    }
    more <= room - fewest
}

// The characters from `at` on, eight to a record, with their number as the second number. The text starts at `start`, where its size is.
fn tell_letters(
    words: &mut [u64],
    n: usize,
    tag: u64,
    start: usize,
    s: &[u8],
    at: usize,
    len: usize,
) -> usize
    requires { (at + len * 7 ≤ length s.now * 8) × (at + len * 7 < 2 ^ 32) }
    ensures { Placed words.old words.new n result (pack tag 0 start (units (bit_of s.now) 7 at len)) }
{
    let mut m = n;
    for i in (0..len).step_by(8) {
        let v = eight(s, at + i * 7, (len - i).min(8));
        m = emit(words, m, tag, v, len as u64, start);
    }
    m
}

// Up to eight characters as one number, the first in the highest octet, and zero for each that is missing.
fn eight(s: &[u8], at: usize, k: usize) -> u64
    requires { (1 ≤ k) × (k ≤ 8) × (at + k * 7 ≤ length s.now * 8) × (at + k * 7 < 2 ^ 32) }
    ensures { result ≡ octets 8 (units (bit_of s.now) 7 at k) }
{
    let mut spare = [0u64; 5];
    let x = Text {
        from: at,
        at: at,
        len: k,
    };
    tell_text(&mut spare, 0, 0, 0, s, x);
    spare[2]
}

// n bits, told by their place and number; where there are none nothing is told.
pub fn take_bits(s: &[u8], words: &mut [u64], at: Step, tag: u64, n: u64) -> Step
    requires { Open s.now at }
    ensures { Came (read (span tag 1 n n) (0, 0) (bit_of s.now) at.c.end at.c.at) at words.old result words.new }
{
    if n == 0 {
        return at;
    }
    let c = at.c;
    let m = at.n;
    let from = c.at;
    let end = c.end;
    let k = n as usize;
    let left = end - from;
    if left < k {
        let e = stop(c, 4, 0);
        return Step { c: e, n: k - left };
    }
    let d = Cursor {
        at: from + k,
        end: end,
        why: 0,
        marks: c.marks,
    };
    let told = emit(words, m, tag, from as u64, n, from);
    Step { c: d, n: told }
}
