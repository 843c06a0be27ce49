// Length determinants.
ghost use Rattle.std.specs.Prelude.{◌≤◌, length};

use super::line::print;
use cursor::place::Got;
use length_determinants::length;
use reader::start;

fn case(frame: &[u8])
    requires { length frame.now ≤ 65536 }
{
    let l = length(frame, start(frame, 0));
    let behind = l.c;
    let g = Got {
        v: l.v as u64,
        c: behind,
    };
    print(b"length", frame, g);
}

pub fn read() {
    case(&[0x00]); // 0, and 0 in seven bits
    case(&[0x7F]); // 0, and 127 in seven bits
    case(&[0x80, 0x80]); // 10, and 128 in fourteen bits
    case(&[0xBF, 0xFF]); // 10, and 16383
    case(&[0x80, 0x7F]); // 10, and 127, for which seven bits are enough
    case(&[0xC1, 0x00]); // 11, and 1 in six bits; the length 0
    case(&[0xC4, 0xC1, 0x05]); // 11, and 4; 11, and 1; the length 5
}

pub fn refused() {
    case(&[0xC0]); // 11, and 0
    case(&[0xC5]); // 11, and 5
    case(&[0xC1, 0xC0]); // 11, and 1; 11, and 0
    case(&[0x80]); // 10, and eight bits short
    case(&[0xC1]); // 11, and 1; no length behind it
    case(&[]);
}
