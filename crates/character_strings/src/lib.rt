// Texts by their places: what is read of a text is where its characters are, and nothing is copied.
#![tactic(auto)]

ghost use Rattle.character_strings.specs.Texts.{SizeRow, Sized, Texts, Channel, Ahead, Passed, Digits};

use cursor::place::{Cursor, Got, bits, mark, ran_out, stop};
use field_ranges::table::Range;
use per::room::holds;

// Where the field starts, which is at its size if that has bits; the place of the first character's bit, and the number of characters.
#[derive(Clone, Copy)]
pub struct Text {
    pub from: usize,
    pub at: usize,
    pub len: usize,
}

// The text of a reading that stopped.
const NO_TEXT: Text = Text {
    from: 0,
    at: 0,
    len: 0,
};

// An IA5 text whose length is a number of the range. Where the reading stops the text is empty, so that its bits are in the frame whatever came before.
pub fn ia5(s: &[u8], c: Cursor, range: Range) -> Got<Text>
    requires { SizeRow range }
    ensures { Texts range.row s.now c result }
{
    let g = size(s, c, range);
    let x = characters(s, g.c, g.v as usize);
    Got {
        v: Text { from: c.at, ..x.v },
        c: x.c,
    }
}

// A size of the range. Above the range it is a size all the same, with mark 1.
pub fn size(s: &[u8], c: Cursor, range: Range) -> Got<u64>
    requires { SizeRow range }
    ensures { Sized range.row s.now c result }
{
    let g = bits(s, c, range.width());
    // of eight bits at most, so the remainder is the number: it bounds the size for callers who know nothing of the window
    let v = range.lo + g.v % 256;
    if v <= range.hi {
        return Got { v, c: g.c };
    }
    let m = mark(g.c, 1);
    Got { v, c: m }
}

// The satellite channel: twelve characters of four bits, of which those above 10 have mark 1.
pub fn channel(s: &[u8], c: Cursor) -> Got<Text>
    ensures { Channel s.now c result }
{
    let all = ahead(s, c, 48);
    let d = digits(s, c);
    if all {
        return Got {
            v: Text {
                from: c.at,
                at: c.at,
                len: 12,
            },
            c: d,
        };
    }
    Got { v: NO_TEXT, c: d }
}

// Whether the reading goes on and the window, which the frame holds, has n bits more.
fn ahead(s: &[u8], c: Cursor, n: usize) -> bool
    ensures { Ahead s.now c n result }
{
    c.why == 0 && c.at <= c.end && n <= c.end - c.at && holds(s, c.end)
}

// So many characters of seven bits, passed over. Without room for all, the reading ran out behind the last whole one, and lacked what is not there of the next.
pub fn characters(s: &[u8], c: Cursor, len: usize) -> Got<Text>
    ensures { Passed len s.now c result }
{
    if !ahead(s, c, 0) {
        let d = stop(c, 4, 0);
        return Got { v: NO_TEXT, c: d };
    }
    let left = c.end - c.at;
    let room = left / 7;
    if len <= room {
        return Got {
            v: Text {
                from: c.at,
                at: c.at,
                len,
            },
            c: Cursor {
                at: c.at + 7 * len,
                why: 0,
                ..c
            },
        };
    }
    let why = ran_out(7 - left % 7);
    Got {
        v: NO_TEXT,
        c: Cursor {
            at: c.at + 7 * room,
            why,
            ..c
        },
    }
}

// The twelve digits of a channel, one after another: the marks of those that are there count even where the others are not.
fn digits(s: &[u8], c: Cursor) -> Cursor
    ensures { Digits 12 s.now c result }
{
    let mut d = c;
    for _ in 0..12usize {
        d = digit(s, d);
    }
    d
}

fn digit(s: &[u8], c: Cursor) -> Cursor
    ensures { Digits 1 s.now c result }
{
    let g = bits(s, c, 4);
    if g.v < 11 {
        return g.c;
    }
    mark(g.c, 1)
}
