// A frame by its number: its bytes, the first one highest.
use super::entries::{Entry, ask};
use listing::Line;

pub fn ask_numbered(line: &mut Line, entry: Entry, bytes: u64, number: u64) {
    match bytes {
        0 => ask(line, entry, &[]),
        1 => ask(line, entry, &[octet(number)]),
        _ => ask(line, entry, &[octet(number / 256), octet(number)]),
    }
}

fn octet(number: u64) -> u8 {
    (number % 256) as u8
}

// The empty frame is `-`.
pub fn put_frame(line: &mut Line, bytes: u64, number: u64) {
    match bytes {
        0 => line.put(b'-'),
        1 => line.put_hex(number, 2),
        _ => line.put_hex(number, 4),
    }
}
