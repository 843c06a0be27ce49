// Lines of the programs that print: a line is put together in an array and written by one call. What does not fit is left out.
#![tactic(auto)]

ghost use Rattle.std.specs.Prelude.{◌≤◌};

mod answer; // answer.rt: an entry's answer with its records
mod case; // case.rt: a case's line

pub use answer::{put_answer, put_records};
pub use case::{print_case, put_octets};

// The most bytes of a line.
const MOST: usize = 1024;

#[derive(Drop)]
pub struct Line {
    bytes: [u8; MOST],
    len: usize,
    ghost within: { len ≤ 1024 },
}

impl Line {
    pub fn new() -> Line {
        Line {
            bytes: [0; MOST],
            len: 0,
        }
    }

    pub fn text(&self) -> &[u8] {
        &self.bytes[..self.len]
    }

    pub fn put(&mut self, byte: u8) {
        if self.len < MOST {
            self.bytes[self.len] = byte;
            self.len += 1;
        }
    }

    pub fn put_text(&mut self, text: &[u8]) {
        for &byte in text {
            self.put(byte);
        }
    }

    pub fn put_decimal(&mut self, number: u64) {
        let mut digits = [0u8; 20];
        let k = io::decimal(number, &mut digits);
        self.put_text(&digits[..k]);
    }

    pub fn put_hex(&mut self, number: u64, width: usize) {
        let mut digits = [0u8; 16];
        let k = io::hex(number, width, &mut digits);
        self.put_text(&digits[..k]);
    }

    // What was put, and the line's end.
    pub fn write(mut self) {
        self.put(b'\n');
        io::write_all(1, self.text());
    }
}
