// The forward message: a header, and the data of a message of either direction in an inner string. The header is read as a value, so that nothing of it is told where the body ends early.
#![tactic(auto)]

ghost use Rattle.std.specs.Prelude.{◌≤◌, ◌<◌, ◌^◌, length};
ghost use Rattle.inner_messages.specs.Parts.{lax_data};
ghost use Rattle.forward.specs.Forward.{Forgives, carried_table, forward_at};
ghost use Rattle.runs.specs.Runs.{Runs};

use cpdlc_tags::CARRIED_DIRECTION;
use cursor::place::{Cursor, bits};
use forward_headers::{read_header, tell_header};
use inner_messages::try_data;
use inner_strings::{Inner, find_string};
use per::units::Octets;
use records::emit;
use records::places::move_places;
use runs::At;
use runs::windows::close_window;

// What is left of a body that failed: cut where the frame ended, mark 7 where it is badly formed.
fn forgive(c: Cursor) -> Cursor
    ensures { Forgives c result }
{
    let at = c.at;
    let end = c.end;
    let marks = c.marks;
    if c.why % 16 == 4 {
        return Cursor {
            at: at,
            end: end,
            why: 7,
            marks: marks,
        };
    }
    if c.why == 5 {
        return Cursor {
            at: at,
            end: end,
            why: 0,
            marks: marks | 64,
        };
    }
    c
}

// The carried data: 0 is the uplink.
fn read_carried(
    s: &[u8],
    words: &mut [u64],
    n: usize,
    c: Cursor,
    direction: u64,
    down: &[u8],
    up: &[u8],
) -> At
    requires { (n < 2 ^ 22) × (1 ≤ length down.now) × (length down.now ≤ 256) × (1 ≤ length up.now) × (length up.now ≤ 256) }
    ensures { Runs 236050 (lax_data (carried_table direction down.now up.now) s.now) s.now c n words.old words.new result }
{
    if direction == 0 {
        return try_data(s, words, n, c, up);
    }
    try_data(s, words, n, c, down)
}

pub fn read_forward(s: &[u8], words: &mut [u64], n: usize, c: Cursor, down: &[u8], up: &[u8]) -> At
    requires { (length s.now ≤ 65536) × (n < 2 ^ 21) × (1 ≤ length down.now) × (length down.now ≤ 256) × (1 ≤ length up.now) × (length up.now ≤ 256) }
    ensures { Runs 236122 (forward_at down.now up.now s.now) s.now c n words.old words.new result }
{
    if c.why != 0 {
        return At { n: n, c: c };
    }
    let h = read_header(s, c);
    let header = h.v;
    let g = bits(s, h.c, 1);
    match find_string(s, g.c) {
        Inner::Lost(d) => {
            let e = forgive(d);
            At { n: n, c: e }
        }
        Inner::Found(from, to, window, d) => {
            let a = tell_header(words, n, s, header);
            let b = emit(words, a, CARRIED_DIRECTION, 0, g.v, 0, h.c.at);
            let x = read_carried(&s[from..to], words, b, window, g.v, down, up);
            let m = x.n;
            // they were told with places in the string's bytes
            let by = Octets(from).bits();
            move_places(words, b, m, by.0);
            let e = close_window(d, x.c);
            At { n: m, c: e }
        }
    }
}
