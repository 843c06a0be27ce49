// The element walk: an index into the lent table, then the argument that its byte names. An argument that cannot be read leaves its element without fields and stops the walk.
#![tactic(auto)]

ghost use Rattle.std.specs.Prelude.{◌+◌, ◌*◌, ◌^◌, ◌≤◌, ◌<◌, length};
ghost use Rattle.elements.specs.Elements.{argument_at, element_at, elements_at};
ghost use Rattle.runs.specs.Runs.{Runs};

use arguments::read_argument;
use cpdlc_tags::ELEMENT_INDEX;
use cursor::place::{Cursor, bits, stop};
use per::width::index_width;
use records::emit;
use runs::At;
use tell_arguments::tell_argument;

pub mod unlisted; // unlisted.rt: whether an element is outside the table

// The argument of the element number i, by the byte of the table.
fn read_told_argument(s: &[u8], words: &mut [u64], x: At, byte: u8, i: u64) -> At
    requires { x.n < 2 ^ 26 }
    ensures { Runs 142 (argument_at byte i s.now) s.now x.c x.n words.old words.new result }
{
    let n = x.n;
    let c = x.c;
    if c.why != 0 {
        return x;
    }
    let a = read_argument(s, c, byte);
    let d = a.c;
    let at = d.at;
    let end = d.end;
    let marks = d.marks;
    if d.why == 0 {
        let argument = a.v;
        let m = tell_argument(words, n, i, s, argument);
        return At { n: m, c: d };
    }
    if d.why == 6 {
        return At { n: n, c: d };
    }
    let given_up = Cursor {
        at: at,
        end: end,
        why: 8,
        marks: marks | 4,
    };
    At { n: n, c: given_up }
}

// The element number i. An index outside the table is badly formed.
pub fn read_element(s: &[u8], words: &mut [u64], x: At, table: &[u8], i: u64) -> At
    requires { (x.n < 2 ^ 25) × (1 ≤ length table.now) × (length table.now ≤ 256) }
    ensures { Runs 143 (element_at table.now i s.now) s.now x.c x.n words.old words.new result }
{
    let n = x.n;
    let width = index_width(table.len());
    let g = bits(s, x.c, width);
    let c = g.c;
    if c.why != 0 {
        return At { n: n, c: c };
    }
    let v = g.v as usize;
    if v < table.len() {
        let m = emit(words, n, ELEMENT_INDEX, i, g.v, 0, x.c.at);
        let y = At { n: m, c: c };
        return read_told_argument(s, words, y, table[v], i);
    }
    let d = stop(c, 5, 1);
    At { n: n, c: d }
}

// The elements that are left, from number i on. Behind one that was given up the others are not read.
pub fn read_elements(s: &[u8], words: &mut [u64], x: At, table: &[u8], i: u64, left: u64) -> At
    requires { (x.n + left * 143 < 2 ^ 25) × (i + left < 2 ^ 32) × (1 ≤ length table.now) × (length table.now ≤ 256) }
    ensures { Runs (left * 143) (elements_at table.now i left s.now) s.now x.c x.n words.old words.new result }
{
    let mut y = x;
    for k in 0..left {
        y = read_element(s, words, y, table, i + k);
    }
    y
}
