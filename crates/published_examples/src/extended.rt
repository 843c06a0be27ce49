// A.4: a sequence whose extension is there, with a choice that is extended too.
use super::read::{ended, first_number, number, size, small_number};

const SEQUENCE: [u8; 8] = [0x9E, 0x00, 0x06, 0x00, 0x04, 0x0A, 0x46, 0x90];

fn record(frame: &[u8]) {
    let extended = first_number(b"A.4\nextended ", frame, 1);
    let optional = number(b", i and j ", frame, extended, 2);
    let a = number(b"\na, 250 and ", frame, optional, 2);
    let b = number(b"\nb ", frame, a, 1);
    let choice = number(b"\nc extended ", frame, b, 1);
    let index = small_number(b", alternative ", frame, choice);
    let octets = size(b", octets ", frame, index);
    let e = number(b": ", frame, octets, 8);
    let additions = small_number(b"\nadditions, 1 and ", frame, e);
    let there = number(b": ", frame, additions, 1);
    let group = size(b", octets ", frame, there);
    let h = number(b"\nh is there: ", frame, group, 1);
    let first = number(b"\ng ", frame, h, 4);
    let second = number(b" ", frame, first, 4);
    let third = number(b" ", frame, second, 4);
    let value = number(b"\nh ", frame, third, 1);
    let padding = number(b", padding ", frame, value, 2);
    ended(padding);
}

pub fn as_published() {
    record(&SEQUENCE);
}

// Without the last byte.
pub fn near_misses() {
    record(&SEQUENCE[..7]);
}
