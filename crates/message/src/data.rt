// The message: its header, its elements, and the constrained data behind them.
ghost use Rattle.std.specs.Prelude.{◌≡◌, true, ◌+◌, ◌/◌, ◌^◌, ◌≤◌, ◌<◌, length};
ghost use Rattle.message.specs.Data.{constrained_at, data_at, message_at};
ghost use Rattle.records.specs.Space.{space};
ghost use Rattle.runs.specs.Runs.{Runs};

use ample_headers::read_header;
use character_strings::size;
use constrained_data::read_constrained;
use cursor::place::{Cursor, presence};
use elements::read_elements;
use field_ranges::table::{ELEMENTS, MSG_ID};
use message_fields::{acknowledgment_field, date_time_field, maybe_number_field, number_field};
use records::space::words_for;
use runs::At;

fn maybe_constrained(s: &[u8], words: &mut [u64], x: At, has: u64) -> At
    requires { x.n < 2 ^ 24 }
    ensures { Runs 162834 (constrained_at has s.now) s.now x.c x.n words.old words.new result }
{
    if has == 0 {
        return x;
    }
    let n = x.n;
    read_constrained(s, words, n, x.c)
}

// The elements, and the constrained data if it is there.
pub fn read_data(s: &[u8], words: &mut [u64], n: usize, c: Cursor, table: &[u8]) -> At
    requires { (n < 2 ^ 23) × (1 ≤ length table.now) × (length table.now ≤ 256) }
    ensures { Runs 236050 (data_at table.now s.now) s.now c n words.old words.new result }
{
    let has = presence(s, c, 1);
    let count = size(s, has.c, ELEMENTS);
    let d = count.c;
    let first = At { n: n, c: d };
    let y = read_elements(s, words, first, table, 1, count.v);
    maybe_constrained(s, words, y, has.v % 2)
}

// The message with its header field by field, so that the reading stops at the one that lacks bits.
fn read_by_fields(s: &[u8], words: &mut [u64], n: usize, c: Cursor, table: &[u8]) -> At
    requires { (n < 2 ^ 22) × (1 ≤ length table.now) × (length table.now ≤ 256) }
    ensures { Runs 236059 (message_at table.now s.now) s.now c n words.old words.new result }
{
    let has = presence(s, c, 2);
    let d = has.c;
    let first = At { n: n, c: d };
    let id = number_field(s, words, first, MSG_ID, cpdlc_tags::MSG_ID);
    let reference = maybe_number_field(s, words, id, has.v / 2 % 2, MSG_ID, cpdlc_tags::MSG_REF);
    let time = date_time_field(s, words, reference);
    let x = acknowledgment_field(s, words, time, has.v % 2);
    let m = x.n;
    read_data(s, words, m, x.c, table)
}

// The bits of the longest header.
const AMPLE_BITS: usize = 48;

// The records of a header are at most as many.
const AMPLE_RECORDS: usize = 9;

// Whether the window has bits for the longest header and the slice the octets to read them from, and the words room for its records, with n before them.
fn is_ample(s: &[u8], room: usize, n: usize, c: Cursor) -> bool
    requires { n < 2 ^ 22 }
    ensures { result ≡ true → (c.why ≡ 0) × (c.at + 48 ≤ c.end) × (c.at / 8 + 8 ≤ length s.now) × (c.at < 2 ^ 32) × (space (n + 9) ≤ room) }
{
    let at = c.at;
    let end = c.end;
    if c.why != 0 {
        return false;
    }
    if end < AMPLE_BITS {
        return false;
    }
    if end - AMPLE_BITS < at {
        return false;
    }
    if 0xffff_ffff < at {
        return false;
    }
    if s.len() < at / 8 + 8 {
        return false;
    }
    words_for(n + AMPLE_RECORDS) <= room
}

// The message. A header that has all its bits ahead and room for all its records is read and told at once.
pub fn read_message(s: &[u8], words: &mut [u64], n: usize, c: Cursor, table: &[u8]) -> At
    requires { (n < 2 ^ 22) × (1 ≤ length table.now) × (length table.now ≤ 256) }
    ensures { Runs 236059 (message_at table.now s.now) s.now c n words.old words.new result }
{
    let at = c.at;
    let end = c.end;
    let marks = c.marks;
    if !is_ample(s, words.len(), n, c) {
        return read_by_fields(s, words, n, c, table);
    }
    let x = read_header(s, words, n, at);
    let p = x.at;
    let m = x.n;
    let d = Cursor {
        at: p,
        end: end,
        why: 0,
        marks: marks | x.marks,
    };
    read_data(s, words, m, d, table)
}
