// Numbers of a range. The bits behind the number are 0.
ghost use Rattle.field_ranges.specs.Ranges.{Listed};

use super::line::print;
use field_ranges::table::{LEVEL_0, Range, YEAR};
use ranged_numbers::ranged;
use reader::start;

fn case(kind: &[u8], frame: &[u8], range: Range)
    requires { Listed range }
{
    let g = ranged(frame, start(frame, 0), range);
    print(kind, frame, g);
}

// 1996..2095, seven bits
pub fn years() {
    case(b"year", &[0xC6], YEAR); // 1100011 is 99
    case(b"year", &[0xC8], YEAR); // 1100100 is 100
    case(b"year", &[0xFE], YEAR); // 1111111 is 127
    case(b"year", &[0x00], YEAR); // 0000000
    case(b"year", &[], YEAR);
}

// -60..7000, thirteen bits; a level below zero is 2^64 less its magnitude
pub fn levels() {
    case(b"level", &[0xDC, 0xA0], LEVEL_0); // 11011100 10100 is 7060
    case(b"level", &[0xDC, 0xA8], LEVEL_0); // 11011100 10101 is 7061
    case(b"level", &[0xFF, 0xF8], LEVEL_0); // 11111111 11111 is 8191
    case(b"level", &[0x00, 0x00], LEVEL_0); // 00000000 00000
    case(b"level", &[0x01, 0xD8], LEVEL_0); // 00000001 11011 is 59
    case(b"level", &[0x01, 0xE0], LEVEL_0); // 00000001 11100 is 60
    case(b"level", &[0xDC], LEVEL_0); // five bits short
}
