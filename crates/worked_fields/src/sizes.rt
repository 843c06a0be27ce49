// Sizes and counts.
use super::line::print;
use character_strings::size;
use field_ranges::table::{AIRPORT_SIZE, ELEMENTS};
use reader::start;

fn airport(frame: &[u8]) {
    let g = size(frame, start(frame, 0), AIRPORT_SIZE);
    print(b"airport size", frame, g);
}

// 4..4, no bits
pub fn airports() {
    airport(&[]);
    airport(&[0xFF]); // not looked at
}

fn element(frame: &[u8]) {
    let g = size(frame, start(frame, 0), ELEMENTS);
    print(b"element count", frame, g);
}

// 1..5, three bits and zeros behind them
pub fn elements() {
    element(&[0x80]); // 100 is 4
    element(&[0xA0]); // 101 is 5
    element(&[0xE0]); // 111 is 7
    element(&[]);
}
