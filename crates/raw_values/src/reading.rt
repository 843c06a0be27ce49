// How a frame reads, as text.
use super::frame::BITS;
use arguments::read_argument;
use cursor::place::Cursor;
use listing::{Line, put_records};
use std::num::wrapping_sub_u64;
use tell_arguments::tell_argument;

// From the value of the record `place`, counted from 1, the raw value is taken away; 0 is no record.
pub fn put_reading(line: &mut Line, s: &[u8; 48], byte: u8, place: usize, raw: u64) {
    let c = Cursor {
        at: 0,
        end: BITS,
        why: 0,
        marks: 0,
    };
    let x = read_argument(s, c, byte);
    let argument = x.v;
    let end = x.c;
    if end.why != 0 {
        return put_refused(line, end);
    }
    let mut words = [0u64; 160];
    let count = tell_argument(&mut words, 0, 1, s, argument);
    if place <= count {
        less_raw(&mut words, place, raw);
    }
    line.put_text(b"ok ");
    put_place(line, end);
    line.put(b' ');
    line.put_decimal(count as u64);
    put_records(line, &words, count);
}

fn less_raw(words: &mut [u64; 160], place: usize, raw: u64) {
    if place == 0 || 32 < place {
        return;
    }
    let at = place * 5 - 3;
    words[at] = wrapping_sub_u64(words[at], raw);
}

fn put_refused(line: &mut Line, c: Cursor) {
    line.put_text(b"no ");
    line.put_decimal(c.why % 16);
    line.put(b' ');
    put_place(line, c);
}

// The bits taken and the marks.
fn put_place(line: &mut Line, c: Cursor) {
    line.put_decimal(c.at as u64);
    line.put(b' ');
    line.put_decimal(c.marks);
}
