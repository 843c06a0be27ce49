// The length determinant, the normally small number, and bits that are passed over.
#![tactic(auto)]

ghost use Rattle.std.specs.Prelude.{◌≡◌, ◌*◌, ◌^◌, ◌≤◌, ◌<◌, length};
ghost use Rattle.cursor.specs.Place.{Inside};
ghost use Rattle.length_determinants.specs.Lengths.{Passes, Known, Heads, Sums, Measures, Worth, Smalls};

use cursor::place::{Cursor, Got, bits, mark, ran_out, stop};
use per::room::holds;
use per::units::{Bits, Octets};

// One length: the last, or a fragment's, behind which another length stands.
#[derive(Clone, Copy)]
enum Head {
    Last(usize, Cursor),
    Part(usize, Cursor),
}

// The next n bits as a number, 0 where they are not there.
fn known(s: &[u8], c: Cursor, n: usize) -> Got<u64>
    requires { n ≤ 64 }
    ensures { Known s.now c n result }
{
    let g = bits(s, c, n);
    let d = g.c;
    if d.why != 0 {
        return Got { v: 0, c: d };
    }
    g
}

// One length. Behind a failure it is the last, so that nothing more is read.
fn one(s: &[u8], c: Cursor) -> Head
    requires { Inside s.now c }
    ensures { Heads s.now c result }
{
    let form = bits(s, c, 1);
    let a = form.c;
    if form.v == 0 {
        let n = known(s, a, 7);
        let d = n.c;
        return Head::Last(n.v as usize, d);
    }
    let more = bits(s, a, 1);
    let b = more.c;
    if more.v == 0 {
        let n = known(s, b, 14);
        let d = n.c;
        if 128 <= n.v {
            return Head::Last(n.v as usize, d);
        }
        let m = mark(d, 16);
        return Head::Last(n.v as usize, m);
    }
    let m = known(s, b, 6);
    let d = m.c;
    if 1 <= m.v {
        if m.v <= 4 {
            let f = mark(d, 16);
            return Head::Part(m.v as usize * 16384, f);
        }
    }
    let f = stop(d, 5, 0);
    Head::Last(0, f)
}

// The lengths from here on, added to the sum of those before. Each fragment takes eight bits, so the bits left fall, and the sum stays small.
fn count(s: &[u8], c: Cursor, sum: usize) -> Got<usize>
    requires { (length s.now ≤ 65536) × Inside s.now c × (sum ≤ c.at * 8192) }
    ensures { Sums s.now c sum result }
{
    match one(s, c) {
        Head::Last(n, d) => Got { v: sum + n, c: d },
        Head::Part(n, d) => count(s, d, sum + n),
    }
}

// The length determinant: the sum of all lengths in a row. Eight bits that are below 128 are one length in the short form, and all.
pub fn length(s: &[u8], c: Cursor) -> Got<usize>
    requires { length s.now ≤ 65536 }
    ensures { Measures s.now c result }
{
    let short = bits(s, c, 8);
    let d = short.c;
    if d.why == 0 {
        if short.v < 128 {
            return Got {
                v: short.v as usize,
                c: d,
            };
        }
    }
    any_form(s, c)
}

// The length determinant, in whatever form its lengths are.
fn any_form(s: &[u8], c: Cursor) -> Got<usize>
    requires { length s.now ≤ 65536 }
    ensures { Measures s.now c result }
{
    let at = c.at;
    let end = c.end;
    if at <= end {
        if holds(s, end) {
            return count(s, c, 0);
        }
    }
    Got { v: 0, c: c }
}

// So many bits are passed over without being looked at. Where the window is too short for them it says so and does not move.
pub fn pass(c: Cursor, n: Bits) -> Cursor
    requires { n.0 < 2 ^ 56 }
    ensures { Passes c n.0 result }
{
    let at = c.at;
    let end = c.end;
    let marks = c.marks;
    if c.why != 0 {
        return c;
    }
    if at <= end {
        let left = end - at;
        if n.0 <= left {
            return Cursor {
                at: at + n.0,
                end: end,
                why: 0,
                marks: marks,
            };
        }
        let why = ran_out(n.0 - left);
        return Cursor {
            at: at,
            end: end,
            why: why,
            marks: marks,
        };
    }
    Cursor {
        at: at,
        end: end,
        why: 4,
        marks: marks,
    }
}

// The number of so many octets, as a word: only the last eight count, and the others are not looked at.
fn last_eight(s: &[u8], c: Cursor, n: Octets) -> Got<u64>
    requires { n.0 * 8 < 2 ^ 56 }
    ensures { Worth s.now c (n.0 * 8) result }
{
    let size = n.bits();
    if size.0 <= 64 {
        return bits(s, c, size.0);
    }
    let d = pass(c, size);
    let at = d.at;
    let end = d.end;
    let marks = d.marks;
    if d.why == 0 {
        if 64 <= at {
            let last = Cursor {
                at: at - 64,
                end: end,
                why: 0,
                marks: marks,
            };
            return bits(s, last, 64);
        }
    }
    Got { v: 0, c: d }
}

// A normally small number: 0 and 6 bits, or 1, a length and so many octets. Its mark is the caller's, before it.
pub fn small(s: &[u8], c: Cursor) -> Got<u64>
    requires { length s.now ≤ 65536 }
    ensures { Smalls s.now c result }
{
    let form = bits(s, c, 1);
    let d = form.c;
    if form.v == 0 {
        return bits(s, d, 6);
    }
    let l = length(s, d);
    let e = l.c;
    last_eight(s, e, Octets(l.v))
}
