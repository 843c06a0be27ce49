// A.1: a personnel record without constraints. The members of a SET stand by their tags: name, number, title, date, spouse, children.
use super::read::{ended, first_number, number, size, string};
use cursor::place::Cursor;

const RECORD: [u8; 84] = [
    0x82, 0x4A, 0xDF, 0xA3, 0x70, 0x0D, 0x00, 0x5A, 0x7B, 0x74, 0xF4, 0xD0, 0x02, 0x66, 0x11, 0x13,
    0x4F, 0x2C, 0xB8, 0xFA, 0x6F, 0xE4, 0x10, 0xC5, 0xCB, 0x76, 0x2C, 0x1C, 0xB1, 0x6E, 0x09, 0x37,
    0x0F, 0x2F, 0x20, 0x35, 0x01, 0x69, 0xED, 0xD3, 0xD3, 0x40, 0x10, 0x2D, 0x2C, 0x3B, 0x38, 0x68,
    0x01, 0xA8, 0x0B, 0x4F, 0x6E, 0x9E, 0x9A, 0x02, 0x18, 0xB9, 0x6A, 0xDD, 0x8B, 0x16, 0x2C, 0x41,
    0x69, 0xF5, 0xE7, 0x87, 0x70, 0x0C, 0x20, 0x59, 0x5B, 0xF7, 0x65, 0xE6, 0x10, 0xC5, 0xCB, 0x57,
    0x2C, 0x1B, 0xB1, 0x6E,
];

fn name(label: &[u8], frame: &[u8], c: Cursor) -> Cursor {
    let given = string(label, frame, c);
    let initial = string(b" ", frame, given);
    string(b" ", frame, initial)
}

fn child(frame: &[u8], c: Cursor) -> Cursor {
    let named = name(b"\nchild ", frame, c);
    string(b" born ", frame, named)
}

fn record(frame: &[u8]) {
    let there = first_number(b"A.1\nchildren are there: ", frame, 1);
    let named = name(b"\nname ", frame, there);
    let octets = size(b"\nnumber, octets ", frame, named);
    let numbered = number(b": ", frame, octets, 8);
    let titled = string(b"\ntitle ", frame, numbered);
    let hired = string(b"\nhired ", frame, titled);
    let spouse = name(b"\nspouse ", frame, hired);
    let count = size(b"\nchildren ", frame, spouse);
    let first = child(frame, count);
    let second = child(frame, first);
    ended(second);
}

pub fn as_published() {
    record(&RECORD);
}

// Without the last byte: the last character is missing.
pub fn near_misses() {
    record(&RECORD[..83]);
}
