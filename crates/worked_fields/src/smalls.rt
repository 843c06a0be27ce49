// Normally small numbers. Behind the first bit each octet straddles two bytes: its top seven bits end one, and its last bit starts the next.
ghost use Rattle.std.specs.Prelude.{◌≤◌, length};

use super::line::print;
use length_determinants::small;
use reader::start;

fn case(frame: &[u8])
    requires { length frame.now ≤ 65536 }
{
    let g = small(frame, start(frame, 0));
    print(b"small", frame, g);
}

pub fn read() {
    // 0 111111 0: the six bits are 63
    case(b"\x7E");
    // 1, then 01 FF: 1 0000000, 1 1111111, 1 0000000
    case(b"\x80\xFF\x80");
    // 1, then 80 01 FF, a longer length than needed: 1 1000000, 0 0000000, 1 1111111, 1 0000000
    case(b"\xC0\x00\xFF\x80");
    // 1, then 08 and eight of FF: 1 0000100, 0 1111111, seven of 1 1111111, 1 0000000
    case(b"\x84\x7F\xFF\xFF\xFF\xFF\xFF\xFF\xFF\x80");
    // 1, then 09 01, seven of 00, 07: 1 0000100, 1 0000000, 1 0000000, six of 0 0000000, 0 0000011, 1 0000000
    case(b"\x84\x80\x80\x00\x00\x00\x00\x00\x00\x03\x80");
}

pub fn refused() {
    // 1, then C0: 1 1100000, 0 0000000
    case(b"\xE0\x00");
    // 1, then a length that lacks its last bit: 1 0000000
    case(b"\x80");
    // 1, then 01 and an octet that lacks its last bit: 1 0000000, 1 0000000
    case(b"\x80\x80");
    // nine octets as above, the last of which lacks its last bit
    case(b"\x84\x80\x80\x00\x00\x00\x00\x00\x00\x03");
    case(b"");
}
