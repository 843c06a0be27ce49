// What stands in inner strings: a message, or the data that a forward message carries. Each is read as a part of the frame, in a window of its own.
#![tactic(auto)]

ghost use Rattle.std.specs.Prelude.{◌≡◌, ◌≤◌, ◌<◌, ◌^◌, length};
ghost use Rattle.inner_messages.specs.Parts.{lax_data, inner_at};
ghost use Rattle.inner_strings.specs.Strings.{Has};
ghost use Rattle.runs.specs.Runs.{Runs};

use cursor::place::Cursor;
use inner_strings::{Inner, find_string};
use message::data::{read_data, read_message};
use per::units::Octets;
use records::places::move_places;
use runs::At;
use runs::windows::close_window;

// Data that may be given up: where it fails, the records that it told do not count. An unsupplied item is said all the same.
pub fn try_data(s: &[u8], words: &mut [u64], n: usize, c: Cursor, table: &[u8]) -> At
    requires { (n < 2 ^ 22) × (1 ≤ length table.now) × (length table.now ≤ 256) }
    ensures { Runs 236050 (lax_data table.now s.now) s.now c n words.old words.new result }
{
    if c.why != 0 {
        return At { n: n, c: c };
    }
    let x = read_data(s, words, n, c, table);
    let d = x.c;
    let why = d.why % 16;
    let at = d.at;
    let end = d.end;
    let marks = d.marks;
    let given_up = Cursor {
        at: at,
        end: end,
        why: 8,
        marks: marks | 64,
    };
    match why {
        4..=5 => At { n: n, c: given_up },
        _ => x,
    }
}

// The message of an inner string that was found, in the bytes from..to of the frame.
pub fn read_found(
    s: &[u8],
    words: &mut [u64],
    n: usize,
    from: usize,
    to: usize,
    window: Cursor,
    behind: Cursor,
    table: &[u8],
) -> At
    requires { (length s.now ≤ 65536) × (n < 2 ^ 22) × (1 ≤ length table.now) × (length table.now ≤ 256) × (from ≤ to) × (to ≤ length s.now) }
    ensures { (c : Cursor) → c.why ≡ 0 → Has s.now c from to window behind → Runs 236059 (inner_at table.now s.now) s.now c n words.old words.new result }
{
    let x = read_message(&s[from..to], words, n, window, table);
    let m = x.n;
    // they were told with places in the string's bytes
    let by = Octets(from).bits();
    move_places(words, n, m, by.0);
    let e = close_window(behind, x.c);
    At { n: m, c: e }
}

// A message in its inner string.
pub fn read_inner(s: &[u8], words: &mut [u64], n: usize, c: Cursor, table: &[u8]) -> At
    requires { (length s.now ≤ 65536) × (n < 2 ^ 22) × (1 ≤ length table.now) × (length table.now ≤ 256) }
    ensures { Runs 236059 (inner_at table.now s.now) s.now c n words.old words.new result }
{
    if c.why != 0 {
        return At { n: n, c: c };
    }
    match find_string(s, c) {
        Inner::Lost(d) => At { n: n, c: d },
        Inner::Found(from, to, window, d) => read_found(s, words, n, from, to, window, d, table),
    }
}
